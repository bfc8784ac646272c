ghost use Rattle.std.specs.Prelude.{◌≡◌, ◌≤◌, length};
ghost use Rattle.node_page.specs.Pages.{IsPage};

/// The payload of a block with its length in use, at most 4,064. The bytes behind that are zero.
#[derive(Clone, Copy)]
pub struct Page {
    pub bytes: [u8; 4064],
    pub len: u16,
}

impl Page {
    /// A page of these bytes, at most 4,064.
    pub fn of(payload: &[u8]) -> Page
        requires { length payload.now ≤ 4064 }
        ensures { IsPage payload.now result }
    {
        let mut bytes = [0; 4064];
        bytes[..payload.len()].copy_from_slice(payload);
        Page {
            bytes,
            len: payload.len() as u16,
        }
    }
}

#[cfg(test)]
mod tests {
    use super::*;
    use std::test::Fail;

    #[test]
    fn has_the_payload_with_zeros_behind(rt: HostRuntime) -> Result<(), Fail> {
        let page = Page::of(b"node");
        assert_eq!(rt; page.len, 4);
        assert_eq!(rt; &page.bytes[..6], b"node\0\0".as_slice());
        assert_eq!(rt; page.bytes[4063], 0);
        Ok(())
    }
}

use std::alloc::AllocError;
use std::env;
use std::io::ErrorKind;

/// The words after the program's name. They are none where one isn't UTF-8, and none are refused.
pub(crate) fn given(rt: &HostRuntime) -> Result<Vec<String>, AllocError> {
    let all = match env::args(rt) {
        Ok(all) => all,
        Err(error) if error.kind() == ErrorKind::OutOfMemory => return Err(AllocError),
        Err(_) => return Ok(Vec::new(rt.alloc())),
    };
    // `collect` would go on after a refused reservation.
    let mut words = Vec::new(rt.alloc());
    for word in all.skip(1) {
        words.push(word)?;
    }
    Ok(words)
}

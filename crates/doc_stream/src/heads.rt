ghost use Rattle.std.specs.Prelude.{◌≡◌, ◌^◌, ◌<◌, ◌≤◌, length, IsTrue, IfSome, MatchOption, not};
ghost use Rattle.std.specs.Int.{w64, to_be_bytes};
ghost use Rattle.std.specs.List.{list_all};
ghost use Rattle.forest_model.specs.Limits as limits;
ghost use Rattle.forest_model.specs.declared.stored.Rec.{Rec};
ghost use Rattle.doc_stream.specs.Heads.{allows, has_form, head_with};
ghost use Rattle.forest_model.specs.Records as records;

use forest_model::Rec;

// What a record's head says: its kind, the lengths of its parts, and its numbers.
#[derive(Drop)]
pub(crate) struct Head {
    pub(crate) kind: u8,
    pub(crate) meta: u8,
    pub(crate) key: u16,
    pub(crate) body: u32,
    pub(crate) store: u64,
    pub(crate) seq: u64,
}

// The head in these bytes; None where no record has it.
pub(crate) fn head_in(bytes: &[u8]) -> Option<Head>
    requires { length bytes.now ≡ 24 }
    ensures head { IfSome result (λ h. bytes.now ≡ head_with h.kind h.meta h.key h.body h.store h.seq) }
    ensures allowed { IfSome result (λ h. IsTrue (allows h.kind h.meta h.key h.body h.seq)) }
    ensures small { IfSome result (λ h. (h.key ≤ 3500) × (h.meta ≤ 255) × (h.body ≤ 1048576)) }
    ensures numbers { IfSome result (λ h. (h.store < 2 ^ 64) × (h.seq < 2 ^ 64)) }
    ensures none { MatchOption result ((r : Rec) → IsTrue (records.is_record r) → bytes.now ≡ records.head_bytes r → ⊥) (λ h. Unit {0}) }
{
    let head = read_head(bytes);
    if has_lengths(&head) { Some(head) } else { None }
}

fn read_head(bytes: &[u8]) -> Head
    requires { length bytes.now ≡ 24 }
    ensures { bytes.now ≡ head_with result.kind result.meta result.key result.body result.store result.seq }
{
    let (lengths, numbers) = bytes.split_at(8);
    let (store, seq) = numbers.split_at(8);
    Head {
        kind: lengths[0],
        meta: lengths[1],
        key: u16::from_be_bytes([lengths[2], lengths[3]]),
        body: u32::from_be_bytes([lengths[4], lengths[5], lengths[6], lengths[7]]),
        store: number_in(store),
        seq: number_in(seq),
    }
}

fn number_in(bytes: &[u8]) -> u64
    requires { length bytes.now ≡ 8 }
    ensures { bytes.now ≡ to_be_bytes w64 result }
{
    let mut number = [0; 8];
    number.copy_from_slice(bytes);
    u64::from_be_bytes(number)
}

// Whether a record of this kind may have these lengths.
fn has_lengths(head: &Head) -> bool
    ensures value { result ≡ allows head.now.kind head.now.meta head.now.key head.now.body head.now.seq }
    ensures small { IsTrue result → (head.now.key ≤ 3500) × (head.now.meta ≤ 255) × (head.now.body ≤ 1048576) }
{
    let is_key = 1 <= head.key && head.key <= 3500;
    let is_bare = head.meta == 0 && head.body == 0;
    match head.kind {
        1 => is_key && head.body <= 1_048_576,
        2 => is_key && is_bare,
        3 => 1 <= head.key && head.key <= 31 && head.seq == 0 && is_bare,
        4 => head.key == 0 && head.seq == 0 && is_bare,
        _ => false,
    }
}

// Whether there is such a record: its lengths are right for its kind, and so is its name, if it has one.
pub(crate) fn has_form(rec: &Rec) -> bool
    ensures { result ≡ has_form rec.now }
{
    is_put(rec) || is_del(rec) || is_store_new(rec) || is_store_gone(rec)
}

fn is_key(key: &[u8]) -> bool
    ensures { result ≡ not (limits.is_wrong_key key.now) }
{
    !key.is_empty() && key.len() <= 3500
}

fn is_put(rec: &Rec) -> bool
    ensures { result ≡ records.is_put rec.now }
{
    rec.kind == 1
        && is_key(rec.key.as_slice())
        && rec.meta.len() <= 255
        && rec.body.len() <= 1_048_576
}

fn is_del(rec: &Rec) -> bool
    ensures { result ≡ records.is_del rec.now }
{
    rec.kind == 2 && is_key(rec.key.as_slice()) && rec.meta.is_empty() && rec.body.is_empty()
}

fn is_store_new(rec: &Rec) -> bool
    ensures { result ≡ records.is_store_new rec.now }
{
    rec.kind == 3
        && is_name(rec.key.as_slice())
        && rec.seq == 0
        && rec.meta.is_empty()
        && rec.body.is_empty()
}

fn is_store_gone(rec: &Rec) -> bool
    ensures { result ≡ records.is_store_gone rec.now }
{
    rec.kind == 4
        && rec.key.is_empty()
        && rec.seq == 0
        && rec.meta.is_empty()
        && rec.body.is_empty()
}

fn is_name_byte(byte: u8) -> bool
    ensures { result ≡ limits.is_name_byte byte }
{
    byte.is_ascii_alphanumeric() || byte == b'_' || byte == b'-' || byte == b'.'
}

fn all_name_bytes(name: &[u8]) -> bool
    ensures { result ≡ list_all limits.is_name_byte name.now }
{
    name.iter().all(|byte| is_name_byte(*byte))
}

fn is_name(name: &[u8]) -> bool
    ensures { result ≡ limits.is_name name.now }
{
    !name.is_empty() && name.len() <= 31 && all_name_bytes(name)
}

// The bytes of keys and values.
ghost use Rattle.std.specs.Prelude.{◌≡◌, ℕ, ◌≤◌, List, length, take, not, position, OnOk, IfErr, None, Some};
ghost use Rattle.rc_ids.specs.Texts.{IsKey, IsText, key_fault, value_fault};
ghost use Rattle.rc_ids.specs.Texts as texts;

use crate::TextFault;

/// Whether the byte may stand in a key: a digit, a letter, `_` or `-`.
pub fn is_key_byte(b: u8) -> bool
    ensures { result ≡ texts.is_key_byte b }
{
    (b'0' <= b && b <= b'9')
        || (b'A' <= b && b <= b'Z')
        || (b'a' <= b && b <= b'z')
        || b == b'_'
        || b == b'-'
}

/// Whether the byte may stand in a value: one from the space to `~`.
pub fn is_value_byte(b: u8) -> bool
    ensures { result ≡ texts.is_value_byte b }
{
    b' ' <= b && b <= b'~'
}

fn bad_key_place(bytes: &[u8]) -> Option<usize>
    ensures { result ≡ position (λ b. not (texts.is_key_byte b)) bytes.now }
{
    bytes.iter().position(|b| !is_key_byte(*b))
}

fn bad_value_place(bytes: &[u8]) -> Option<usize>
    ensures { result ≡ position (λ b. not (texts.is_value_byte b)) bytes.now }
{
    bytes.iter().position(|b| !is_value_byte(*b))
}

/// Whether the bytes are a key, or why not.
pub fn check_key(bytes: &[u8]) -> Result<(), TextFault>
    ensures ok { OnOk result (IsKey bytes.now) }
    ensures none { OnOk result (key_fault bytes.now ≡ None) }
    ensures err { IfErr result (λ e. key_fault bytes.now ≡ Some e) }
{
    if bytes.len() < 1 || bytes.len() > 64 {
        return Err(TextFault::BadLength);
    }
    match bad_key_place(bytes) {
        Some(place) => Err(TextFault::BadByte(place)),
        None => Ok(()),
    }
}

/// Whether the bytes are a text, or why not.
pub fn check_text(bytes: &[u8]) -> Result<(), TextFault>
    ensures ok { OnOk result (IsText bytes.now) }
    ensures none { OnOk result (value_fault bytes.now ≡ None) }
    ensures err { IfErr result (λ e. value_fault bytes.now ≡ Some e) }
{
    if bytes.len() > 1024 {
        return Err(TextFault::BadLength);
    }
    match bad_value_place(bytes) {
        Some(place) => Err(TextFault::BadByte(place)),
        None => Ok(()),
    }
}

// Reading fields.
ghost use Rattle.std.specs.Prelude.{◌≡◌, ◌==◌, ℕ, List, length, Ok, Err, IfOk, IfErr};
ghost use Rattle.rc_fields.specs.Formats.{IsBytes};
ghost use Rattle.rc_fields.specs.Reading.{bytes_at, u8_at, u16_at, u32_at, u64_at, tag_at, length_at, counted_at};

use crate::FieldFault;
use std::marker::Model;

/// Reads fields from the front of bytes. After a fault it is as before.
#[derive(Drop)]
pub struct Fields<'a> {
    rest: &'a [u8],
}

impl<'a> Model for Fields<'a> {
    ghost use Rattle.std.specs.Prelude.{ℕ, List};

    ghost Value = { List ℕ };

    ghost view = { λ f. f.rest.now };
}

/// These bytes.
fn whole(bytes: &[u8]) -> &[u8]
    ensures same { result.now ≡ bytes.now }
    ensures bytes { IsBytes result.now }
{
    bytes
}

impl<'a> Fields<'a> {
    /// A reader of these bytes.
    pub fn new(bytes: &'a [u8]) -> Fields<'a>
        ensures { result ≡ bytes.now }
    {
        Fields { rest: bytes }
    }

    /// The bytes that are left.
    pub fn rest(&self) -> &'a [u8]
        ensures rest { result.now ≡ self.now }
        ensures bytes { IsBytes self.now }
    {
        whole(self.rest)
    }

    /// Whether no byte is left.
    pub fn is_end(&self) -> bool
        ensures { result ≡ (length self.now == 0) }
    {
        self.rest.is_empty()
    }

    fn bytes(&mut self, count: usize) -> Result<&'a [u8], FieldFault>
        ensures ok { IfOk result (λ v. bytes_at count self.old ≡ Ok (v.now, self.new)) }
        ensures err { IfErr result (λ e. (bytes_at count self.old ≡ Err e) × (self.new ≡ self.old)) }
    {
        if self.rest.len() < count {
            return Err(FieldFault::Short);
        }
        let (front, rest) = self.rest.split_at(count);
        self.rest = rest;
        Ok(front)
    }

    /// One byte.
    pub fn u8(&mut self) -> Result<u8, FieldFault>
        ensures ok { IfOk result (λ v. u8_at self.old ≡ Ok (v, self.new)) }
        ensures err { IfErr result (λ e. (u8_at self.old ≡ Err e) × (self.new ≡ self.old)) }
    {
        let Some((first, rest)) = self.rest.split_first() else {
            return Err(FieldFault::Short);
        };
        self.rest = rest;
        Ok(*first)
    }

    /// A number of two bytes.
    pub fn u16(&mut self) -> Result<u16, FieldFault>
        ensures ok { IfOk result (λ v. u16_at self.old ≡ Ok (v, self.new)) }
        ensures err { IfErr result (λ e. (u16_at self.old ≡ Err e) × (self.new ≡ self.old)) }
    {
        let b = self.bytes(2)?;
        Ok(u16::from_be_bytes([b[0], b[1]]))
    }

    /// A number of four bytes.
    pub fn u32(&mut self) -> Result<u32, FieldFault>
        ensures ok { IfOk result (λ v. u32_at self.old ≡ Ok (v, self.new)) }
        ensures err { IfErr result (λ e. (u32_at self.old ≡ Err e) × (self.new ≡ self.old)) }
    {
        let b = self.bytes(4)?;
        Ok(u32::from_be_bytes([b[0], b[1], b[2], b[3]]))
    }

    /// A number of eight bytes.
    pub fn u64(&mut self) -> Result<u64, FieldFault>
        ensures ok { IfOk result (λ v. u64_at self.old ≡ Ok (v, self.new)) }
        ensures err { IfErr result (λ e. (u64_at self.old ≡ Err e) × (self.new ≡ self.old)) }
    {
        let b = self.bytes(8)?;
        Ok(u64::from_be_bytes([b[0], b[1], b[2], b[3], b[4], b[5], b[6], b[7]]))
    }

    /// A byte that is at most `max`.
    pub fn tag(&mut self, max: u8) -> Result<u8, FieldFault>
        ensures ok { IfOk result (λ v. tag_at max self.old ≡ Ok (v, self.new)) }
        ensures err { IfErr result (λ e. (tag_at max self.old ≡ Err e) × (self.new ≡ self.old)) }
    {
        let start = self.rest;
        let tag = self.u8()?;
        if tag > max {
            self.rest = start;
            return Err(FieldFault::BadTag);
        }
        Ok(tag)
    }

    fn length(&mut self, max: u16) -> Result<u16, FieldFault>
        ensures ok { IfOk result (λ v. length_at max self.old ≡ Ok (v, self.new)) }
        ensures err { IfErr result (λ e. (length_at max self.old ≡ Err e) × (self.new ≡ self.old)) }
    {
        if max <= 255 {
            Ok(u16::from(self.u8()?))
        } else {
            self.u16()
        }
    }

    /// A length of at most `max`, and so many bytes. The length takes one byte where `max` is at most 255, else two.
    /// The length stands first: above `max` it is too long, also where its bytes are missing.
    pub fn counted(&mut self, max: u16) -> Result<&'a [u8], FieldFault>
        ensures ok { IfOk result (λ v. counted_at max self.old ≡ Ok (v.now, self.new)) }
        ensures err { IfErr result (λ e. (counted_at max self.old ≡ Err e) × (self.new ≡ self.old)) }
    {
        let start = self.rest;
        let len = self.length(max)?;
        if len > max {
            self.rest = start;
            return Err(FieldFault::TooLong);
        }
        match self.bytes(len as usize) {
            Ok(bytes) => Ok(bytes),
            Err(fault) => {
                self.rest = start;
                Err(fault)
            }
        }
    }
}

// A record's bytes, read from left to right: numbers, the least byte first, and names.
#![tactic(auto)]

ghost use Rattle.std.specs.Prelude.{◌≡◌, ◌<◌, ◌≤◌, take, IfErr, IfOk};
ghost use Rattle.definition.specs.Reader.{byte, read_u16, read_u32, byte_to, name_below};
ghost use Rattle.cursor.specs.Words.{Within, Next, Asked, read};

use refusals::Refusal;

// The most bytes that a record has.
pub const MAX_RECORD: usize = 4096;

// The bytes of a record that are left.
#[derive(Clone, Copy)]
pub struct Reader<'a> {
    pub left: &'a [u8],
}

impl<'a> Reader<'a> {
    // At the head of these bytes: byte 4,097 is never read.
    pub fn new(bytes: &'a [u8]) -> Reader<'a>
        ensures { result.left.now ≡ take 4096 bytes.now }
    {
        let end = bytes.len().min(MAX_RECORD);
        Reader {
            left: &bytes[..end],
        }
    }

    // The next N bytes, with one test of the length.
    fn array<const N: usize>(&mut self) -> Result<[u8; N], Refusal>
        ensures { Next N self.old.left.now self.new.left.now result }
    {
        let Some((bytes, left)) = self.left.split_first_chunk() else {
            return Err(Refusal::Malformed);
        };
        self.left = left;
        Ok(*bytes)
    }

    pub fn u8(&mut self) -> Result<u8, Refusal>
        ensures is { read result self.new.left.now ≡ byte self.old.left.now }
        ensures within { Within self.old.left.now self.new.left.now }
        ensures kept { IfErr result (λ e. self.new.left.now ≡ self.old.left.now) }
        ensures asked { Asked 1 self.old.left.now self.new.left.now }
    {
        let [byte] = self.array::<1>()?;
        Ok(byte)
    }

    pub fn u16(&mut self) -> Result<u16, Refusal>
        ensures is { read result self.new.left.now ≡ read_u16 self.old.left.now }
        ensures within { Within self.old.left.now self.new.left.now }
        ensures kept { IfErr result (λ e. self.new.left.now ≡ self.old.left.now) }
        ensures asked { Asked 2 self.old.left.now self.new.left.now }
    {
        let bytes = self.array::<2>()?;
        Ok(u16::from_le_bytes(bytes))
    }

    pub fn u32(&mut self) -> Result<u32, Refusal>
        ensures is { read result self.new.left.now ≡ read_u32 self.old.left.now }
        ensures within { Within self.old.left.now self.new.left.now }
        ensures kept { IfErr result (λ e. self.new.left.now ≡ self.old.left.now) }
        ensures asked { Asked 4 self.old.left.now self.new.left.now }
    {
        let bytes = self.array::<4>()?;
        Ok(u32::from_le_bytes(bytes))
    }

    // A byte from 0 to max.
    pub fn byte_to(&mut self, max: u32) -> Result<u8, Refusal>
        ensures is { read result self.new.left.now ≡ byte_to max self.old.left.now }
        ensures within { Within self.old.left.now self.new.left.now }
        ensures most { IfOk result (λ x. x ≤ max) }
        ensures asked { Asked 1 self.old.left.now self.new.left.now }
    {
        let byte = self.u8()?;
        if max < u32::from(byte) {
            return Err(Refusal::Malformed);
        }
        Ok(byte)
    }

    // A name of which there are `known`.
    pub fn name_below(&mut self, known: u32) -> Result<u16, Refusal>
        ensures is { read result self.new.left.now ≡ name_below known self.old.left.now }
        ensures within { Within self.old.left.now self.new.left.now }
        ensures below { IfOk result (λ x. x < known) }
        ensures asked { Asked 2 self.old.left.now self.new.left.now }
    {
        let name = self.u16()?;
        if u32::from(name) < known {
            Ok(name)
        } else {
            Err(Refusal::UnknownName)
        }
    }
}

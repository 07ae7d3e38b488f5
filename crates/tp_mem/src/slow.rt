//! Writes to pages that may be shared, which are parted first. None of them is inlined into the interpreter's loop, and a write that comes
//! here ends here, so that the loop keeps nothing over the call.

ghost use Rattle.std.specs.Prelude.{◌≡◌, ◌∷◌, [], ◌%◌, ◌<◌, length, IsTrue};
ghost use Rattle.tp_mem.specs.Lower.{LacksFrames, byte_ranges, byte_stored, kept_after, offset, stored, word_offset, word_ranges};
ghost use Rattle.tp_mem.specs.Copies.{kept_of};
ghost use Rattle.tp_mem.specs.Ranges.{are_inside};
ghost use Rattle.tp_mem.specs.Stored.{IsStored, OnNoFrame};

use crate::address::{offset, word_offset};
use crate::cow::CowMemory;
use crate::fault::WriteFault;
use crate::touch::NOWHERE;

impl CowMemory {
    /// Parts the page of an address that is inside, if it is shared, and puts a byte there.
    #[inline(never)]
    pub(crate) fn part_and_put_byte(&mut self, address: u32, byte: u8) -> Result<(), WriteFault>
        requires { offset address < length self.old.live }
        ensures stored { IsStored (byte_stored self.old.live address byte) self.old.live result self.new.live }
        ensures kept { kept_of self.new ≡ kept_after result (kept_of self.old) (byte_ranges address) }
        ensures refusal { OnNoFrame result (LacksFrames (kept_of self.old) (byte_ranges address)) }
    {
        let at = offset(address);
        let Ok(()) = self.separate((at, 1), NOWHERE, &[]) else {
            return Err(WriteFault::NoFrame);
        };
        self.live.put_byte(at, byte);
        Ok(())
    }

    /// Parts the page of an address's word that is inside, if it is shared, and writes the word.
    #[inline(never)]
    pub(crate) fn part_and_put_word(&mut self, address: u32, word: u32) -> Result<(), WriteFault>
        requires { word_offset address < length self.old.live }
        ensures stored { IsStored (stored self.old.live ((address, word) ∷ [])) self.old.live result self.new.live }
        ensures kept { kept_of self.new ≡ kept_after result (kept_of self.old) (word_ranges ((address, word) ∷ [])) }
        ensures refusal { OnNoFrame result (LacksFrames (kept_of self.old) (word_ranges ((address, word) ∷ []))) }
    {
        let at = word_offset(address);
        let Ok(()) = self.separate((at, 4), NOWHERE, &[]) else {
            return Err(WriteFault::NoFrame);
        };
        self.live.put_word(at, word);
        Ok(())
    }

    /// Parts the shared pages of words that are inside, and writes them.
    fn part_and_put_all(&mut self, writes: &[(u32, u32)]) -> Result<(), WriteFault>
        requires whole { length self.old.live % 4 ≡ 0 }
        requires inside { IsTrue (are_inside (length self.old.live) writes.now) }
        ensures stored { IsStored (stored self.old.live writes.now) self.old.live result self.new.live }
        ensures kept { kept_of self.new ≡ kept_after result (kept_of self.old) (word_ranges writes.now) }
        ensures refusal { OnNoFrame result (LacksFrames (kept_of self.old) (word_ranges writes.now)) }
    {
        let Ok(()) = self.separate(NOWHERE, NOWHERE, writes) else {
            return Err(WriteFault::NoFrame);
        };
        self.live.put_words(writes);
        Ok(())
    }

    /// Does it with two words.
    #[inline(never)]
    fn part_and_put_two(&mut self, one: (u32, u32), two: (u32, u32)) -> Result<(), WriteFault>
        requires whole { length self.old.live % 4 ≡ 0 }
        requires inside { IsTrue (are_inside (length self.old.live) (one ∷ two ∷ [])) }
        ensures stored { IsStored (stored self.old.live (one ∷ two ∷ [])) self.old.live result self.new.live }
        ensures kept { kept_of self.new ≡ kept_after result (kept_of self.old) (word_ranges (one ∷ two ∷ [])) }
        ensures refusal { OnNoFrame result (LacksFrames (kept_of self.old) (word_ranges (one ∷ two ∷ []))) }
    {
        self.part_and_put_all(&[one, two])
    }

    /// Does it with four words.
    #[inline(never)]
    fn part_and_put_four(
        &mut self,
        one: (u32, u32),
        two: (u32, u32),
        three: (u32, u32),
        four: (u32, u32),
    ) -> Result<(), WriteFault>
        requires whole { length self.old.live % 4 ≡ 0 }
        requires inside { IsTrue (are_inside (length self.old.live) (one ∷ two ∷ three ∷ four ∷ [])) }
        ensures stored { IsStored (stored self.old.live (one ∷ two ∷ three ∷ four ∷ [])) self.old.live result self.new.live }
        ensures kept { kept_of self.new ≡ kept_after result (kept_of self.old) (word_ranges (one ∷ two ∷ three ∷ four ∷ [])) }
        ensures refusal { OnNoFrame result (LacksFrames (kept_of self.old) (word_ranges (one ∷ two ∷ three ∷ four ∷ []))) }
    {
        self.part_and_put_all(&[one, two, three, four])
    }

    /// Parts the shared pages of words that are inside, and writes them. Two words and four are handed on by themselves, so that in the
    /// interpreter's loop no table of them is made.
    #[inline(always)]
    pub(crate) fn part_and_put(&mut self, writes: &[(u32, u32)]) -> Result<(), WriteFault>
        requires whole { length self.old.live % 4 ≡ 0 }
        requires inside { IsTrue (are_inside (length self.old.live) writes.now) }
        ensures stored { IsStored (stored self.old.live writes.now) self.old.live result self.new.live }
        ensures kept { kept_of self.new ≡ kept_after result (kept_of self.old) (word_ranges writes.now) }
        ensures refusal { OnNoFrame result (LacksFrames (kept_of self.old) (word_ranges writes.now)) }
    {
        match writes {
            [one, two] => self.part_and_put_two(*one, *two),
            [one, two, three, four] => self.part_and_put_four(*one, *two, *three, *four),
            _ => self.part_and_put_all(writes),
        }
    }
}

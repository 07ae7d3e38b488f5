//! Laws of reading and writing instructions. Each is the contract of a function that does nothing.

ghost use Rattle.tp_cpu.specs.Laws.{ReadsExactly, SpellsOnce, ReadsBack, SpellingSpells, SpellingIsShortest};

/// Reading gives an answer exactly if the bytes allow it, and bytes spell at most one instruction.
pub fn reading_is_exact()
    ensures exactly { ReadsExactly }
    ensures once { SpellsOnce }
{}

/// What was written for an instruction reads back as that instruction.
pub fn encoding_reads_back()
    ensures { ReadsBack }
{}

/// What is written for an instruction is one of its spellings, and none of them is shorter.
pub fn no_spelling_is_shorter()
    ensures spells { SpellingSpells }
    ensures shortest { SpellingIsShortest }
{}

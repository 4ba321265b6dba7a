// The words of typed cases. What they mean is said in `typed_cases`.
#![tactic(auto)]

ghost use Rattle.std.specs.Prelude.{◌≤◌};

// Changes of the file at hand.
#[derive(Clone, Copy)]
pub enum Change {
    File,
    Op,
    Many,
    Byte,
    Size,
}

impl Change {
    // How many numbers stand behind the word.
    fn numbers(self) -> usize {
        match self {
            Change::File | Change::Byte => 2,
            Change::Op => 5,
            Change::Many => 9,
            Change::Size => 1,
        }
    }
}

// Files that are read at once.
#[derive(Clone, Copy)]
pub enum AtOnce {
    Header,
    Record,
}

#[derive(Clone, Copy)]
pub enum Call {
    Accept,
    Table,
    Pair,
    Runs,
    Races,
    Canonical,
    Beginning,
}

impl Call {
    // How many numbers are lent or passed.
    pub fn lent(self) -> usize
        ensures { result ≤ 4 }
    {
        match self {
            Call::Accept => 0,
            Call::Table | Call::Canonical => 1,
            Call::Pair => 2,
            Call::Races => 3,
            Call::Runs | Call::Beginning => 4,
        }
    }

    // How many values the call answers.
    fn values(self) -> usize
        ensures { result ≤ 3 }
    {
        match self {
            Call::Pair | Call::Runs | Call::Canonical => 1,
            Call::Accept | Call::Table | Call::Beginning => 2,
            Call::Races => 3,
        }
    }

    // Behind what is lent stand the number and place of the refusal, or 0 0 and the values.
    fn is_whole(self, numbers: &[u32]) -> bool {
        match numbers.get(self.lent()) {
            Some(0) => numbers.len() == self.lent() + 2 + self.values(),
            Some(_) => numbers.len() == self.lent() + 2,
            None => false,
        }
    }
}

// Memory that calls are lent: what is put there, and looks at it.
#[derive(Clone, Copy)]
pub enum Memory {
    PutFirst,
    PutSecond,
    Entries,
    First,
    Second,
    Written,
}

impl Memory {
    // How many numbers stand behind the word at least.
    fn least(self) -> usize {
        match self {
            Memory::PutFirst | Memory::PutSecond => 1,
            Memory::Entries | Memory::First | Memory::Second | Memory::Written => 2,
        }
    }
}

#[derive(Clone, Copy)]
pub enum Word {
    Nothing,
    Change(Change),
    AtOnce(AtOnce),
    Call(Call),
    Memory(Memory),
}

impl Word {
    // Has a line with this word and these numbers what it needs?
    pub fn is_whole(self, numbers: &[u32]) -> bool {
        match self {
            Word::Nothing => numbers.is_empty(),
            Word::Change(change) => numbers.len() == change.numbers(),
            Word::AtOnce(_) => numbers.len() == 8,
            Word::Call(call) => call.is_whole(numbers),
            Word::Memory(memory) => memory.least() <= numbers.len(),
        }
    }
}

// The word that is written so, if there is one.
fn word_of(name: &[u8]) -> Option<Word> {
    match name {
        b"" => Some(Word::Nothing),
        b"file" => Some(Word::Change(Change::File)),
        b"op" => Some(Word::Change(Change::Op)),
        b"many" => Some(Word::Change(Change::Many)),
        b"byte" => Some(Word::Change(Change::Byte)),
        b"size" => Some(Word::Change(Change::Size)),
        b"header" => Some(Word::AtOnce(AtOnce::Header)),
        b"record" => Some(Word::AtOnce(AtOnce::Record)),
        b"accept" => Some(Word::Call(Call::Accept)),
        b"table" => Some(Word::Call(Call::Table)),
        b"pair" => Some(Word::Call(Call::Pair)),
        b"runs" => Some(Word::Call(Call::Runs)),
        b"races" => Some(Word::Call(Call::Races)),
        b"canonical" => Some(Word::Call(Call::Canonical)),
        b"beginning" => Some(Word::Call(Call::Beginning)),
        b"put-first" => Some(Word::Memory(Memory::PutFirst)),
        b"put-second" => Some(Word::Memory(Memory::PutSecond)),
        b"entries" => Some(Word::Memory(Memory::Entries)),
        b"first" => Some(Word::Memory(Memory::First)),
        b"second" => Some(Word::Memory(Memory::Second)),
        b"written" => Some(Word::Memory(Memory::Written)),
        _ => None,
    }
}

// The word with which a line starts, up to a space.
pub fn word_at(line: &[u8]) -> Option<Word> {
    word_of(line.split(|byte| *byte == b' ').next().unwrap_or(b""))
}

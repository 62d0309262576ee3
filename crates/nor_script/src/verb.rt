ghost use Rattle.std.specs.Prelude.{◌≡◌};
ghost use Rattle.nor_script.specs.Grammar.{verb_of, field_count, may_stand};

/// What a line begins with, behind its caller.
#[derive(Clone, Copy, Debug, PartialEq, Eq)]
pub enum Verb {
    Read,
    Program,
    Erase,
    EraseAll,
    Open,
    OpenAll,
    Poll,
    Lock,
    Unlock,
    Locked,
    Cut,
    Reboot,
}

/// The beginning of a line. A cut and a reboot have caller 0.
#[derive(Clone, Copy, Debug, PartialEq, Eq)]
pub struct Head {
    pub caller: u8,
    pub verb: Verb,
}

// What a caller asks for.
pub fn verb_of(word: &[u8]) -> Option<Verb>
    ensures { result ≡ verb_of word.now }
{
    if word == b"read".as_slice() {
        Some(Verb::Read)
    } else if word == b"program".as_slice() {
        Some(Verb::Program)
    } else if word == b"erase".as_slice() {
        Some(Verb::Erase)
    } else if word == b"erase-all".as_slice() {
        Some(Verb::EraseAll)
    } else if word == b"open".as_slice() {
        Some(Verb::Open)
    } else if word == b"open-all".as_slice() {
        Some(Verb::OpenAll)
    } else if word == b"poll".as_slice() {
        Some(Verb::Poll)
    } else if word == b"lock".as_slice() {
        Some(Verb::Lock)
    } else if word == b"unlock".as_slice() {
        Some(Verb::Unlock)
    } else if word == b"locked".as_slice() {
        Some(Verb::Locked)
    } else {
        None
    }
}

impl Verb {
    // How many fields a line has.
    pub fn field_count(self) -> usize
        ensures { result ≡ field_count self }
    {
        match self {
            Verb::Reboot => 1,
            Verb::EraseAll | Verb::OpenAll | Verb::Poll => 2,
            Verb::Erase | Verb::Open | Verb::Lock | Verb::Unlock | Verb::Locked | Verb::Cut => 3,
            Verb::Read | Verb::Program => 4,
        }
    }

    // Whether a line may stand here, in a script for callers that race and behind a caller's line.
    pub fn may_stand(self, race: bool, has_callers: bool) -> bool
        ensures { result ≡ may_stand race has_callers self }
    {
        match self {
            Verb::Open | Verb::OpenAll | Verb::Poll | Verb::Reboot => !race,
            Verb::Cut => !(race && has_callers),
            _ => true,
        }
    }
}

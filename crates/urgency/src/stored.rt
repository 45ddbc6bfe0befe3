// Stored numbers: whom one names, and what the marks and holders of a region say.
ghost use Rattle.std.specs.Prelude.{◌≡◌, ◌&&◌};
ghost use Rattle.rules.specs.Words.{names};
ghost use Rattle.rules.specs.Urgency.{is_open};
ghost use Rattle.urgency.specs.Named.{stored};

use rules::OPEN;

// Whom a stored number names: 0 nobody, any other the one before it.
pub(crate) fn named(entry: u8) -> Option<u8>
    ensures { stored result ≡ entry }
{
    entry.checked_sub(1)
}

// A stored number names n.
pub(crate) fn names_it(entry: u8, n: usize) -> bool
    ensures { result ≡ names entry n }
{
    named(entry).is_some_and(|x| usize::from(x) == n)
}

pub(crate) fn is_open(mark: u8) -> bool
    ensures { result ≡ is_open mark }
{
    mark == OPEN
}

// A region's mark and holder say that it is open and that task n holds it.
pub(crate) fn holds_it(mark: u8, holder: u8, n: usize) -> bool
    ensures { result ≡ (is_open mark && names holder n) }
{
    is_open(mark) & names_it(holder, n)
}

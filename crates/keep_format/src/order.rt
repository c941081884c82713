//! The order of names.
ghost use Rattle.std.specs.Prelude.{◌≡◌};
ghost use Rattle.keep_format.specs.Order.{is_before, is_behind};

/// The name of a row.
#[derive(Clone, Copy)]
pub(crate) struct Name {
    pub(crate) cycle: u32,
    pub(crate) cell: u32,
    pub(crate) bit: u8,
}

/// Returns whether one name comes before another.
pub(crate) fn is_before(a: Name, b: Name) -> bool
    ensures { result ≡ is_before a b }
{
    if a.cycle != b.cycle {
        return a.cycle < b.cycle;
    }
    if a.cell != b.cell {
        return a.cell < b.cell;
    }
    a.bit < b.bit
}

/// Returns whether a name comes after the last one, if there is one.
pub(crate) fn is_behind(last: Option<Name>, name: Name) -> bool
    ensures { result ≡ is_behind last name }
{
    match last {
        None => true,
        Some(last) => is_before(last, name),
    }
}

// What the page shows of a colour.

/// A valve with its opening and the water's temperature, as read off a colour; valve 0 where the opening is 0.
#[derive(Clone, Copy, Default, PartialEq, Eq)]
pub struct Indication {
    // A number and not a `Valve`: indications lie in a row in one form, with 0 for none.
    pub valve: u8,
    pub temperature: u8,
    pub opening: u16,
}

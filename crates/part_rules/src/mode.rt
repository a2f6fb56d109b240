/// How what is smaller or greater than its room is placed in it (CSS Box Alignment 3, sections 4 and 5).
///
/// `Between`, `Around` and `Evenly` are `space-between`, `space-around` and `space-evenly`; they place content only.
/// `Stretch` places as `Start`.
#[derive(Clone, Copy, Debug, PartialEq, Eq)]
pub enum Mode {
    Start,
    End,
    Center,
    Stretch,
    Between,
    Around,
    Evenly,
}

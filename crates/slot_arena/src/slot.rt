/// The name of a value in an arena: the number of its place, and how many slots that place gave before it.
#[derive(Clone, Copy, PartialEq, Eq, Debug)]
pub struct Slot {
    pub index: u32,
    pub generation: u32,
}

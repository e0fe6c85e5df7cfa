use crate::entries::Entries;
use generation::Generated;

/// What an edit makes of a session beside the looks that it lays: other entries, and the map for these.
#[derive(Drop)]
pub(crate) struct Made {
    pub(crate) entries: Entries,
    pub(crate) generated: Generated,
}

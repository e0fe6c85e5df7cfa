use crate::{Known, Trail};
use std::alloc::Global;
use tree_model::Folder;

/// What a question is answered by: what is known of a folder, the folder, and the trail on which looks are counted. A
/// call writes to these three, and leaves the references to them as they are.
#[derive(Drop)]
pub struct Lookup<'a, F: Folder> {
    pub alloc: Global,
    pub known: &'a mut Known,
    pub folder: &'a mut F,
    pub trail: &'a mut Trail,
}

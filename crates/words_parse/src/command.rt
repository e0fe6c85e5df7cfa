/// The values of the options that are given to `link`.
#[derive(Debug, Clone, Copy)]
pub struct LinkValues<'a> {
    /// The value of `--base`.
    pub base: Option<&'a str>,
    /// The value of `--page`.
    pub page: Option<&'a str>,
    /// The value of `--conditions`.
    pub conditions: Option<&'a str>,
}

/// What plain words ask for. Entries are the last of the words, as they stand there.
#[derive(Debug, Clone, Copy)]
pub enum Command<'a> {
    /// To add these entries to the project, with these options.
    Link(LinkValues<'a>, &'a [String]),
    /// To take these entries out of the project.
    Unlink(&'a [String]),
    /// To write the map anew.
    Refresh,
    /// To compare the map's file with what is needed.
    Check,
    /// The same, and to compare each module with the statement grammar.
    CheckStrictly,
    /// To print the modules.
    List,
    /// To write the page with the map in it.
    Inject,
    /// To read edits from the input.
    Session,
    /// To print how the page comes to load the file at this path.
    Why(&'a str),
    /// To copy what the map needs into this folder.
    Vendor(&'a str),
    /// To generate over a tree of this size.
    Measure(u64),
}

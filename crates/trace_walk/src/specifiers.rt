ghost use Rattle.std.specs.Prelude.{◌≡◌, length, slice_get, option_copied};
ghost use Rattle.trace_walk.specs.Shown.{specifiers_of};

use es_module_parser::Requests;
use shared_types::Text;

/// What a referrer asks for, in order.
#[derive(Clone, Copy)]
pub(crate) enum Specifiers<'a> {
    /// The entries of a page.
    Entries(&'a [Text]),
    /// The requests of a module.
    Requests(&'a Requests),
}

impl<'a> Specifiers<'a> {
    /// The number of specifiers.
    pub(crate) fn len(self) -> usize
        ensures { result ≡ length (specifiers_of self.entry) }
    {
        match self {
            Specifiers::Entries(entries) => entries.len(),
            Specifiers::Requests(requests) => requests.len(),
        }
    }

    /// The specifier with this number, counted from 0.
    pub(crate) fn at(self, index: usize) -> Option<&'a Text>
        ensures { option_copied result ≡ slice_get (specifiers_of self.entry) index }
    {
        match self {
            Specifiers::Entries(entries) => entries.get(index),
            Specifiers::Requests(requests) => match requests.at(index) {
                None => None,
                Some(request) => Some(&request.text),
            },
        }
    }
}

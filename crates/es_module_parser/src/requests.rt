ghost use Rattle.std.specs.Prelude.{◌≡◌, IfOk, length, slice_get, option_copied};

use module_spec::Request;
use shared_types::{Listed, Memory};
use std::alloc::Global;
use std::marker::Model;

/// The requests of a module text, in its order. Only [`outline`](crate::outline) makes them from a text.
#[derive(Drop)]
pub struct Requests {
    items: Listed<Request>,
}

impl Model for Requests {
    ghost use Rattle.std.specs.Prelude.{List};
    ghost use Rattle.module_spec.specs.declared.request.Request.{Request};

    ghost Value = { List Request };

    ghost view = { λ r. r.items };
}

/// What a module text asks for, and whether it is a module's: whether it has an import or export declaration, or
/// `import.meta`.
#[derive(Drop)]
pub struct Outline {
    pub requests: Requests,
    pub declares: bool,
}

fn copy_of(request: &Request, alloc: Global) -> Result<Request, Memory>
    ensures { IfOk result (λ copy. copy ≡ request.now) }
{
    Ok(Request {
        from: request.from,
        to: request.to,
        text: request.text.copy(alloc)?,
    })
}

impl Requests {
    /// The requests of a text that was read.
    pub(crate) fn of(items: Listed<Request>) -> Requests
        ensures { result ≡ items }
    {
        Requests { items }
    }

    /// The number of requests.
    pub fn len(&self) -> usize
        ensures { result ≡ length self.now }
    {
        self.items.len()
    }

    /// The request with this number, counted from 0.
    pub fn at(&self, index: usize) -> Option<&Request>
        ensures { option_copied result ≡ slice_get self.now index }
    {
        self.items.at(index)
    }

    /// Lends the requests.
    pub fn as_slice(&self) -> &[Request]
        ensures { result.now ≡ self.now }
    {
        self.items.as_slice()
    }

    /// A list of equal requests, whose texts share the memory of these.
    pub fn listed(&self, alloc: Global) -> Result<Listed<Request>, Memory>
        ensures { IfOk result (λ copy. copy ≡ self.now) }
    {
        let mut items = Listed::new(alloc);
        for request in self.items.as_slice() {
            items.push(copy_of(request, alloc)?)?;
        }
        Ok(items)
    }

    /// Equal requests, whose texts share the memory of these.
    pub fn copy(&self, alloc: Global) -> Result<Requests, Memory>
        ensures { IfOk result (λ copy. copy ≡ self.now) }
    {
        Ok(Requests {
            items: self.listed(alloc)?,
        })
    }
}

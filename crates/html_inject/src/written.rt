ghost use Rattle.std.specs.Prelude.{◌≡◌, ◌++◌, ◌≤◌, IfOk, length, take, drop, codes};
ghost use Rattle.page_spec.specs.Injection.{replaced, element};

use std::alloc::{AllocError, Global};

/// The page with the map in place of what stands from one offset to the other.
pub(crate) fn replaced(
    alloc: Global,
    page: &[u8],
    from: usize,
    to: usize,
    map: &[u8],
) -> Result<Vec<u8>, AllocError>
    requires from { from ≤ length page.now }
    requires to { to ≤ length page.now }
    ensures { IfOk result (λ new. new.items ≡ replaced from to map.now page.now) }
{
    let front = &page[..from];
    let back = &page[to..];
    let size = front
        .len()
        .saturating_add(map.len())
        .saturating_add(back.len());
    let mut new = Vec::with_capacity(alloc, size)?;
    new.extend_from_slice(front)?;
    new.extend_from_slice(map)?;
    new.extend_from_slice(back)?;
    Ok(new)
}

// The import map element of the map, and a line end.
fn element(alloc: Global, map: &[u8]) -> Result<Vec<u8>, AllocError>
    ensures { IfOk result (λ new. new.items ≡ element map.now) }
{
    let start = b"<script type=\"importmap\">".as_slice();
    let end = b"</script>\n".as_slice();
    let size = start
        .len()
        .saturating_add(map.len())
        .saturating_add(end.len());
    let mut new = Vec::with_capacity(alloc, size)?;
    new.extend_from_slice(start)?;
    new.extend_from_slice(map)?;
    new.extend_from_slice(end)?;
    Ok(new)
}

/// The page with an import map element of the map before the offset.
pub(crate) fn inserted(
    alloc: Global,
    page: &[u8],
    at: usize,
    map: &[u8],
) -> Result<Vec<u8>, AllocError>
    requires { at ≤ length page.now }
    ensures { IfOk result (λ new. new.items ≡ replaced at at (element map.now) page.now) }
{
    let element = element(alloc, map)?;
    replaced(alloc, page, at, at, element.as_slice())
}

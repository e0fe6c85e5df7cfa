ghost use Rattle.std.specs.Prelude.{◌≡◌};
ghost use Rattle.es_module_parser.specs.Progress.{binding_turn, export_name_turn, in_braces, specifier_turn, turned};
ghost use Rattle.es_module_parser.specs.declared.expect.Expect.TheVariants as expect;

use crate::terminals::{is_exported, is_mark, is_name, is_text, is_word};
use module_spec::Kind;

/// What a declaration goes on with, by the productions of ECMA-262, 16.2.2 and 16.2.3.
#[derive(Clone, Copy, Debug, PartialEq, Eq)]
pub enum Expect {
    /// What stands behind `import`.
    ImportDeclaration,
    /// What stands behind a default binding.
    BehindDefault,
    /// What stands behind a default binding and its comma.
    SecondBinding,
    /// What stands behind the `*` of a name space.
    NameSpaceImport,
    /// What stands behind the `as` of a name space.
    ImportedBinding,
    /// What stands inside of the braces of an import.
    ImportBraces,
    FromClause,
    ModuleSpecifier,
    /// What stands behind `export`.
    ExportDeclaration,
    /// What stands behind the `*` of an export.
    ExportAll,
    /// What stands behind the `as` of an export.
    ModuleExportName,
    /// What stands inside of the braces of an export.
    ExportBraces,
    /// What stands behind the braces of an export.
    NamedExports,
    /// What stands behind the `from` of such an export.
    NamedSpecifier,
}

/// What a token is to a declaration.
#[derive(Clone, Copy, Debug, PartialEq, Eq)]
pub enum Turn {
    /// The declaration goes on behind it.
    Go(Expect),
    /// It can't stand there.
    Wrong,
    /// It is the module specifier.
    Asked,
    /// The declaration ended before it, or is none.
    Leave,
}

/// A token in its place.
#[derive(Clone, Copy, Debug, PartialEq, Eq)]
pub struct Seen {
    pub kind: Kind,
    pub from: usize,
    /// It isn't the name of a property.
    pub plain: bool,
    /// A declaration may begin with it.
    pub top: bool,
    /// How many brackets are open behind it.
    pub behind: usize,
}

fn in_braces(behind: usize, next: Expect, inside: Expect) -> Turn
    ensures { result ≡ in_braces behind next inside }
{
    if behind == 0 {
        Turn::Go(next)
    } else {
        Turn::Go(inside)
    }
}

fn import_turn(seen: Seen, text: &[u8]) -> Turn
    ensures { result ≡ turned expect.ImportDeclaration seen text.now }
{
    let kind = seen.kind;
    if is_mark(kind, text, b"(".as_slice()) || is_mark(kind, text, b".".as_slice()) {
        Turn::Leave
    } else if is_text(kind) {
        Turn::Asked
    } else if is_name(kind) {
        Turn::Go(Expect::BehindDefault)
    } else if is_mark(kind, text, b"*".as_slice()) {
        Turn::Go(Expect::NameSpaceImport)
    } else if is_mark(kind, text, b"{".as_slice()) {
        in_braces(seen.behind, Expect::FromClause, Expect::ImportBraces)
    } else {
        Turn::Wrong
    }
}

fn default_turn(seen: Seen, text: &[u8]) -> Turn
    ensures { result ≡ turned expect.BehindDefault seen text.now }
{
    if is_word(seen.kind, text, b"from".as_slice()) {
        Turn::Go(Expect::ModuleSpecifier)
    } else if is_mark(seen.kind, text, b",".as_slice()) {
        Turn::Go(Expect::SecondBinding)
    } else {
        Turn::Wrong
    }
}

fn second_turn(seen: Seen, text: &[u8]) -> Turn
    ensures { result ≡ turned expect.SecondBinding seen text.now }
{
    if is_mark(seen.kind, text, b"*".as_slice()) {
        Turn::Go(Expect::NameSpaceImport)
    } else if is_mark(seen.kind, text, b"{".as_slice()) {
        in_braces(seen.behind, Expect::FromClause, Expect::ImportBraces)
    } else {
        Turn::Wrong
    }
}

fn name_space_turn(seen: Seen, text: &[u8]) -> Turn
    ensures { result ≡ turned expect.NameSpaceImport seen text.now }
{
    if is_word(seen.kind, text, b"as".as_slice()) {
        Turn::Go(Expect::ImportedBinding)
    } else {
        Turn::Wrong
    }
}

fn binding_turn(seen: Seen) -> Turn
    ensures { result ≡ binding_turn seen }
{
    if is_name(seen.kind) {
        Turn::Go(Expect::FromClause)
    } else {
        Turn::Wrong
    }
}

fn from_turn(seen: Seen, text: &[u8]) -> Turn
    ensures { result ≡ turned expect.FromClause seen text.now }
{
    if is_word(seen.kind, text, b"from".as_slice()) {
        Turn::Go(Expect::ModuleSpecifier)
    } else {
        Turn::Wrong
    }
}

fn specifier_turn(seen: Seen, otherwise: Turn) -> Turn
    ensures { result ≡ specifier_turn seen otherwise }
{
    if is_text(seen.kind) {
        Turn::Asked
    } else {
        otherwise
    }
}

fn export_turn(seen: Seen, text: &[u8]) -> Turn
    ensures { result ≡ turned expect.ExportDeclaration seen text.now }
{
    if is_mark(seen.kind, text, b"*".as_slice()) {
        Turn::Go(Expect::ExportAll)
    } else if is_mark(seen.kind, text, b"{".as_slice()) {
        in_braces(seen.behind, Expect::NamedExports, Expect::ExportBraces)
    } else if is_exported(seen.kind, text) {
        Turn::Leave
    } else {
        Turn::Wrong
    }
}

fn all_turn(seen: Seen, text: &[u8]) -> Turn
    ensures { result ≡ turned expect.ExportAll seen text.now }
{
    if is_word(seen.kind, text, b"from".as_slice()) {
        Turn::Go(Expect::ModuleSpecifier)
    } else if is_word(seen.kind, text, b"as".as_slice()) {
        Turn::Go(Expect::ModuleExportName)
    } else {
        Turn::Wrong
    }
}

fn export_name_turn(seen: Seen) -> Turn
    ensures { result ≡ export_name_turn seen }
{
    if is_name(seen.kind) || is_text(seen.kind) {
        Turn::Go(Expect::FromClause)
    } else {
        Turn::Wrong
    }
}

fn named_turn(seen: Seen, text: &[u8]) -> Turn
    ensures { result ≡ turned expect.NamedExports seen text.now }
{
    if is_word(seen.kind, text, b"from".as_slice()) {
        Turn::Go(Expect::NamedSpecifier)
    } else {
        Turn::Leave
    }
}

impl Expect {
    /// What the next token is to the declaration.
    pub fn turn(self, seen: Seen, text: &[u8]) -> Turn
        ensures { result ≡ turned self seen text.now }
    {
        match self {
            Expect::ImportDeclaration => import_turn(seen, text),
            Expect::BehindDefault => default_turn(seen, text),
            Expect::SecondBinding => second_turn(seen, text),
            Expect::NameSpaceImport => name_space_turn(seen, text),
            Expect::ImportedBinding => binding_turn(seen),
            Expect::ImportBraces => in_braces(
                seen.behind,
                Expect::FromClause,
                Expect::ImportBraces,
            ),
            Expect::FromClause => from_turn(seen, text),
            Expect::ModuleSpecifier => specifier_turn(seen, Turn::Wrong),
            Expect::ExportDeclaration => export_turn(seen, text),
            Expect::ExportAll => all_turn(seen, text),
            Expect::ModuleExportName => export_name_turn(seen),
            Expect::ExportBraces => in_braces(
                seen.behind,
                Expect::NamedExports,
                Expect::ExportBraces,
            ),
            Expect::NamedExports => named_turn(seen, text),
            Expect::NamedSpecifier => specifier_turn(seen, Turn::Leave),
        }
    }
}

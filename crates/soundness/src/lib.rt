//! The promise of a generated map: the theorem that joins Node's resolution and HTML's. It is a
//! law of definitions alone; the code owes nothing but to give what generation is defined to give.
//! It rests on what any map owes to needs, and not on where this layout puts its mappings; that no map serves with
//! fewer rests on the layout alone.
#![tactic(auto)]

ghost use Rattle.soundness.specs.Soundness.{CheckedMapsServe, FewestMapsServe, GeneratedIsSmallest, GeneratedReadsBack};
ghost use Rattle.soundness.specs.Soundness.{MapsArePlain, MapsReadBack, MapsServe, ModulesAreKnown, NoMapServesAClash};
ghost use Rattle.soundness.specs.Soundness.{NothingDiffers, OneMapInPage, SessionMapsServe, Soundness};
ghost use Rattle.soundness.specs.Soundness.{WrittenMapsDifferNowhere};

/// Wherever generation gives a map's text, this text serves: through it every request of the page and of each module
/// that the page reaches leads to exactly the file that Node's resolver gives.
pub fn map_is_sound()
    ensures { Soundness }
{}

/// And no map that serves has fewer mappings, whatever it maps where, unless a key of it ends in `/`.
pub fn generated_is_smallest()
    ensures { GeneratedIsSmallest }
{}

/// And this text has the digest of the file of each module that the page reaches, under the module's URL, and no other:
/// what a browser loads through it has the bytes that were traced.
pub fn modules_are_known()
    ensures { ModulesAreKnown }
{}

/// What soundness rests on: a map's text serves wherever its mappings stand, if the map captures no need of the trace
/// and has no mappings but those of needs.
pub fn maps_serve()
    ensures { MapsServe }
{}

/// The text of such a map, read against a map base, has exactly the map's mappings and digests.
pub fn maps_read_back()
    ensures { MapsReadBack }
{}

/// So the layout with the fewest mappings serves, with the digests of the trace's modules.
pub fn fewest_maps_serve()
    ensures { FewestMapsServe }
{}

/// Whoever checks that text over the same tree, from the same page, finds no difference.
pub fn nothing_differs()
    ensures { NothingDiffers }
{}

/// So the map that a command writes has no difference from the tree of which it was made.
pub fn written_maps_differ_nowhere()
    ensures { WrittenMapsDifferNowhere }
{}

/// A map's text that generation gives is read as the layout with the digests of the trace's modules, and as nothing
/// more or less.
pub fn generated_reads_back()
    ensures { GeneratedReadsBack }
{}

/// A trace is refused for two requests that clash where each import map would fail one of them.
pub fn no_map_serves_a_clash()
    ensures { NoMapServesAClash }
{}

/// And whatever text has no difference serves, whoever wrote it.
pub fn checked_maps_serve()
    ensures { CheckedMapsServe }
{}

/// A map's text that generation gives is UTF-8 and holds no `<`, so no tag of a page is read in it.
pub fn maps_are_plain()
    ensures { MapsArePlain }
{}

/// A page into which such a text is put has one import map element, and the text is its raw text.
pub fn one_map_in_page()
    ensures { OneMapInPage }
{}

/// Wherever a session stands that is opened on a tree, its map is generated for its tree and config, whatever edits led
/// there; so it serves, has the digests of the modules, and is smallest.
pub fn session_maps_serve()
    ensures { SessionMapsServe }
{}

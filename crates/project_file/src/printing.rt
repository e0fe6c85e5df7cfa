ghost use Rattle.std.specs.Prelude.{◌≡◌, ◌∷◌, ◌++◌, All, IfOk, IsUtf8, Ok, OnOk};
ghost use Rattle.node_spec.specs.Conditions.{AreConditions};
ghost use Rattle.json_spec.specs.PrintedString.{quoted};
ghost use Rattle.json_spec.specs.PrintedValue.{line, printed, printed_items};
ghost use Rattle.json_spec.specs.Value.{a_list};
ghost use Rattle.ordered_json.specs.Appending.{Appends};
ghost use Rattle.project_spec.specs.ProjectFiles.{ReadsProject, project_text, project_value, strings};
ghost use Rattle.project_file.specs.Parts.{CanBeReadBack};

use condition_match::Conditions;
use ordered_json::print_text;
use shared_types::{Listed, Memory, Text};
use std::alloc::Global;
use trace_config::Config;

/// The bytes of a config's file: one object, two spaces a level, each member, condition and entry on a line of its own.
pub fn print_project(alloc: Global, config: &Config) -> Result<Vec<u8>, Memory>
    ensures text { IfOk result (λ bytes. bytes.items ≡ project_text config.now) }
    ensures read_back { IfOk result (λ bytes. ReadsProject bytes.items (Ok config.now)) }
{
    let conditions = names_of(alloc, config.conditions())?;
    let mut out = Vec::new(alloc);
    push_project(&mut out, config, conditions.as_slice())?;
    Ok(out)
}

// The names of conditions.
fn names_of(alloc: Global, conditions: &Conditions) -> Result<Listed<Text>, Memory>
    ensures names { IfOk result (λ names. names ≡ conditions.now) }
    ensures allowed { IfOk result (λ names. AreConditions conditions.now) }
{
    let mut names = Listed::new(alloc);
    for index in 0..conditions.len() {
        let Some(name) = conditions.at(index) else {
            unreachable!();
        };
        names.push(name.copy(alloc)?)?;
    }
    Ok(names)
}

fn push_project(out: &mut Vec<u8>, config: &Config, conditions: &[Text]) -> Result<(), Memory>
    requires names { conditions.now ≡ config.now.conditions }
    requires allowed { AreConditions config.now.conditions }
    ensures text { OnOk result (Appends out.old.items out.new.items
        (λ rest. printed 0 (project_value config.now) (10 ∷ rest))) }
    ensures can_be_read { OnOk result (CanBeReadBack config.now) }
{
    out.extend_from_slice(b"{\n  \"base\": ".as_slice())?;
    print_text(out, config.base().as_str())?;
    out.extend_from_slice(b",\n  \"page\": ".as_slice())?;
    print_text(out, config.page().as_str())?;
    out.extend_from_slice(b",\n  \"conditions\": ".as_slice())?;
    push_strings(out, conditions)?;
    out.extend_from_slice(b",\n  \"entries\": ".as_slice())?;
    push_strings(out, config.entries())?;
    out.extend_from_slice(b"\n}\n".as_slice())
}

// A list of strings whose opening bracket stands on a member's line.
fn push_strings(out: &mut Vec<u8>, texts: &[Text]) -> Result<(), Memory>
    ensures text { OnOk result (Appends out.old.items out.new.items (printed 1 (a_list (strings texts.now)))) }
    ensures utf8 { OnOk result (All IsUtf8 texts.now) }
{
    let Some((first, more)) = texts.split_first() else {
        return out.extend_from_slice(b"[]".as_slice());
    };
    out.push(b'[')?;
    push_string(out, first.as_str())?;
    push_more_strings(out, more)?;
    out.extend_from_slice(b"\n  ]".as_slice())
}

// What stands behind the first string.
fn push_more_strings(out: &mut Vec<u8>, texts: &[Text]) -> Result<(), Memory>
    ensures text { OnOk result (Appends out.old.items out.new.items (printed_items 2 (strings texts.now))) }
    ensures utf8 { OnOk result (All IsUtf8 texts.now) }
{
    for text in texts {
        out.push(b',')?;
        push_string(out, text.as_str())?;
    }
    Ok(())
}

fn push_string(out: &mut Vec<u8>, text: &str) -> Result<(), Memory>
    ensures { OnOk result (Appends out.old.items out.new.items (λ rest. line 2 (quoted text.now ++ rest))) }
{
    out.extend_from_slice(b"\n    ".as_slice())?;
    print_text(out, text)
}

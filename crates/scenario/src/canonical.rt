//! The canonical text of a scenario (docs/FORMATS.md, "Scenario").

ghost use Rattle.std.specs.Prelude.{◌≡◌, ◌++◌, codes, string_bytes, OnOk, IfOk};
ghost use Rattle.scenario.specs.Ops.{name_of, op_text};
ghost use Rattle.scenario.specs.Canonical.{number_line, text_line, file_lines, all_file_lines, op_line, op_lines, actor_lines, all_actor_lines, canonical_text};

use crate::op::{Op, Script};
use crate::scenario::{FileDecl, Scenario};
use std::alloc::{AllocError, Global};
use std::fmt::Write;

/// The canonical text of a scenario.
pub fn print(alloc: Global, scenario: &Scenario) -> Result<String, AllocError>
    ensures { IfOk result (λ text. string_bytes text ≡ canonical_text scenario.now) }
{
    let mut text = String::new(alloc);
    write_scenario(&mut text, scenario)?;
    Ok(text)
}

/// Adds the canonical text of a scenario. An error may leave a part of it.
#[tactic(auto, unfolding(crate::specs::Canonical::canonical_text))]
pub fn write_scenario(text: &mut String, scenario: &Scenario) -> Result<(), AllocError>
    ensures { OnOk result (string_bytes text.new ≡ string_bytes text.old ++ canonical_text scenario.now) }
{
    let files = scenario.files.as_slice();
    write_number(text, "unit", scenario.shape.unit())?;
    write_number(text, "nodes", u32::from(scenario.shape.nodes()))?;
    write_number(text, "drives", u32::from(scenario.shape.drives()))?;
    write_number(text, "slots", u32::from(scenario.shape.slots()))?;
    write_number(text, "workers", u32::from(scenario.workers))?;
    write_files(text, files)?;
    write_actors(text, files, scenario.actors.as_slice())
}

#[tactic(auto, unfolding(crate::specs::Canonical::number_line))]
fn write_number(text: &mut String, key: &str, number: u32) -> Result<(), AllocError>
    ensures { OnOk result (string_bytes text.new ≡ string_bytes text.old ++ number_line key.now number) }
{
    writeln!(text, "{key} = {number}")
}

fn write_files(text: &mut String, files: &[FileDecl]) -> Result<(), AllocError>
    ensures { OnOk result (string_bytes text.new ≡ string_bytes text.old ++ all_file_lines files.now) }
{
    for file in files {
        write_file(text, file)?;
    }
    Ok(())
}

#[tactic(auto, unfolding(crate::specs::Canonical::file_lines))]
fn write_file(text: &mut String, file: &FileDecl) -> Result<(), AllocError>
    ensures { OnOk result (string_bytes text.new ≡ string_bytes text.old ++ file_lines file.now) }
{
    write!(text, "[[file]]\n")?;
    write_text(text, "name", file.name.as_str())?;
    write_text(text, "level", file.level.name())
}

#[tactic(auto, unfolding(crate::specs::Canonical::text_line))]
fn write_text(text: &mut String, key: &str, value: &str) -> Result<(), AllocError>
    ensures { OnOk result (string_bytes text.new ≡ string_bytes text.old ++ text_line key.now value.now) }
{
    writeln!(text, "{key} = \"{value}\"")
}

fn write_actors(text: &mut String, files: &[FileDecl], actors: &[Script]) -> Result<(), AllocError>
    ensures { OnOk result (string_bytes text.new ≡ string_bytes text.old ++ all_actor_lines files.now actors.now) }
{
    for script in actors {
        write_actor(text, files, script.as_slice())?;
    }
    Ok(())
}

#[tactic(auto, unfolding(crate::specs::Canonical::actor_lines))]
fn write_actor(text: &mut String, files: &[FileDecl], ops: &[Op]) -> Result<(), AllocError>
    ensures { OnOk result (string_bytes text.new ≡ string_bytes text.old ++ actor_lines files.now ops.now) }
{
    write!(text, "[[actor]]\nops = [\n")?;
    write_ops(text, files, ops)?;
    write!(text, "]\n")
}

fn write_ops(text: &mut String, files: &[FileDecl], ops: &[Op]) -> Result<(), AllocError>
    ensures { OnOk result (string_bytes text.new ≡ string_bytes text.old ++ op_lines files.now ops.now) }
{
    for op in ops {
        write_op_line(text, files, op)?;
    }
    Ok(())
}

#[tactic(auto, unfolding(crate::specs::Canonical::op_line))]
fn write_op_line(text: &mut String, files: &[FileDecl], op: &Op) -> Result<(), AllocError>
    ensures { OnOk result (string_bytes text.new ≡ string_bytes text.old ++ op_line files.now op.now) }
{
    write!(text, "\"")?;
    write_op(text, files, op)?;
    write!(text, "\",\n")
}

/// Adds the text of an operation, in a scenario with these files. An error may leave a part of it.
#[tactic(auto, unfolding(crate::specs::Ops::op_text, crate::specs::Ops::drive_text))]
pub fn write_op(text: &mut String, files: &[FileDecl], op: &Op) -> Result<(), AllocError>
    ensures { OnOk result (string_bytes text.new ≡ string_bytes text.old ++ op_text files.now op.now) }
{
    match op {
        Op::Create { file } => write!(text, "create {}", name_of(files, *file)),
        Op::WriteText {
            file,
            offset,
            text: payload,
        } => {
            write!(
                text,
                "write {} {offset} text:{}",
                name_of(files, *file),
                payload.as_str()
            )
        }
        Op::Read { file, offset, len } => write!(
            text,
            "read {} {offset} {len}",
            name_of(files, *file)
        ),
        Op::Fail { drive } => write!(text, "fail {}/{}", drive.node(), drive.drive()),
    }
}

/// The name of the file of this number, or nothing where there is none.
fn name_of(files: &[FileDecl], file: u16) -> &str
    ensures { result.now ≡ name_of files.now file }
{
    match files.get(usize::from(file)) {
        Some(file) => file.name.as_str(),
        None => "",
    }
}

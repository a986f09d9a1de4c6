//! The canonical text of a scenario (docs/FORMATS.md, "Scenario").

ghost use Rattle.std.specs.Prelude.{◌≡◌, ◌++◌, string_bytes, OnOk, IfOk};
ghost use Rattle.operation_rules.specs.OpRules.{file_names};
ghost use Rattle.whole_scenario.specs.Canonical.{actor_lines, actor_opening, all_actor_lines, all_file_lines, canonical_text, file_lines, number_line, op_line, op_lines, text_line};

use crate::op::{Op, Script};
use crate::op_line::write_op;
use crate::whole::Scenario;
use operation_text::JobName;
use scenario::FileDecl;
use std::alloc::{AllocError, Global};
use std::fmt::Write;

/// The canonical text of a scenario.
pub fn print(alloc: Global, scenario: &Scenario) -> Result<String, AllocError>
    ensures { IfOk result (λ text. string_bytes text ≡ canonical_text scenario.now) }
{
    let mut text = String::new(alloc);
    write_scenario(&mut text, scenario)?;
    Ok(text)
}

/// Adds the canonical text of a scenario. An error may leave a part of it.
#[tactic(auto, unfolding(crate::specs::Canonical::canonical_text))]
pub fn write_scenario(text: &mut String, scenario: &Scenario) -> Result<(), AllocError>
    ensures { OnOk result (string_bytes text.new ≡ string_bytes text.old ++ canonical_text scenario.now) }
{
    let files = scenario.files.as_slice();
    write_number(text, "unit", scenario.shape.unit())?;
    write_number(text, "nodes", u32::from(scenario.shape.nodes()))?;
    write_number(text, "drives", u32::from(scenario.shape.drives()))?;
    write_number(text, "slots", u32::from(scenario.shape.slots()))?;
    write_number(text, "workers", u32::from(scenario.workers))?;
    write_files(text, files)?;
    write_actors(
        text,
        files,
        scenario.jobs.as_slice(),
        scenario.actors.as_slice(),
    )
}

#[tactic(auto, unfolding(crate::specs::Canonical::number_line))]
fn write_number(text: &mut String, key: &str, number: u32) -> Result<(), AllocError>
    ensures { OnOk result (string_bytes text.new ≡ string_bytes text.old ++ number_line key.now number) }
{
    writeln!(text, "{key} = {number}")
}

fn write_files(text: &mut String, files: &[FileDecl]) -> Result<(), AllocError>
    ensures { OnOk result (string_bytes text.new ≡ string_bytes text.old ++ all_file_lines files.now) }
{
    for file in files {
        write_file(text, file)?;
    }
    Ok(())
}

#[tactic(auto, unfolding(crate::specs::Canonical::file_lines))]
fn write_file(text: &mut String, file: &FileDecl) -> Result<(), AllocError>
    ensures { OnOk result (string_bytes text.new ≡ string_bytes text.old ++ file_lines file.now) }
{
    write!(text, "[[file]]\n")?;
    write_text(text, "name", file.name.as_str())?;
    write_text(text, "level", file.level.name())
}

#[tactic(auto, unfolding(crate::specs::Canonical::text_line))]
fn write_text(text: &mut String, key: &str, value: &str) -> Result<(), AllocError>
    ensures { OnOk result (string_bytes text.new ≡ string_bytes text.old ++ text_line key.now value.now) }
{
    writeln!(text, "{key} = \"{value}\"")
}

fn write_actors(
    text: &mut String,
    files: &[FileDecl],
    jobs: &[JobName],
    actors: &[Script],
) -> Result<(), AllocError>
    ensures { OnOk result (string_bytes text.new ≡ string_bytes text.old ++ all_actor_lines (file_names files.now) jobs.now actors.now) }
{
    for script in actors {
        write_actor(text, files, jobs, script.as_slice())?;
    }
    Ok(())
}

#[tactic(auto, unfolding(crate::specs::Canonical::actor_lines))]
fn write_actor(
    text: &mut String,
    files: &[FileDecl],
    jobs: &[JobName],
    ops: &[Op],
) -> Result<(), AllocError>
    ensures { OnOk result (string_bytes text.new ≡ string_bytes text.old ++ actor_lines (file_names files.now) jobs.now ops.now) }
{
    write_opening(text)?;
    write_ops(text, files, jobs, ops)?;
    write!(text, "]\n")
}

/// Adds the lines before the operations of an actor.
#[tactic(auto, unfolding(crate::specs::Canonical::actor_opening))]
fn write_opening(text: &mut String) -> Result<(), AllocError>
    ensures { OnOk result (string_bytes text.new ≡ string_bytes text.old ++ actor_opening) }
{
    write!(text, "[[actor]]\nops = [\n")
}

fn write_ops(
    text: &mut String,
    files: &[FileDecl],
    jobs: &[JobName],
    ops: &[Op],
) -> Result<(), AllocError>
    ensures { OnOk result (string_bytes text.new ≡ string_bytes text.old ++ op_lines (file_names files.now) jobs.now ops.now) }
{
    for op in ops {
        write_op_line(text, files, jobs, op)?;
    }
    Ok(())
}

#[tactic(auto, unfolding(crate::specs::Canonical::op_line))]
fn write_op_line(
    text: &mut String,
    files: &[FileDecl],
    jobs: &[JobName],
    op: &Op,
) -> Result<(), AllocError>
    ensures { OnOk result (string_bytes text.new ≡ string_bytes text.old ++ op_line (file_names files.now) jobs.now op.now) }
{
    write!(text, "\"")?;
    write_op(text, files, jobs, op)?;
    write!(text, "\",\n")
}

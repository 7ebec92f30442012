//! The reports.
ghost use Rattle.std.specs.Prelude.{◌≡◌, ◌++◌, IfOk, OnOk, codes};
ghost use Rattle.std.specs.Fmt.{decimal};
ghost use Rattle.jl_rows.specs.Seen.{HasForm, options_seen};
ghost use Rattle.jl_base.specs.Spans.{IsInside};
ghost use Rattle.jl_survey.specs.Counting.{HaveAllPassed, survey_seen};
ghost use Rattle.jl_survey.specs.Reports as spec;
ghost use Rattle.std.specs.Option.{option_map};

use crate::numbers::Survey;
use jl_base::{Space, Text};
use jl_rows::{Options, Physical};
use jl_text::push_string;
use std::alloc::{AllocError, Global};

// Appends a text and the number behind it.
#[tactic(auto, unfolding(crate::specs::Reports::valued))]
fn push_valued(out: &mut Vec<u8>, text: &[u8], n: u64) -> Result<(), AllocError>
    ensures { OnOk result (out.new.items ≡ out.old.items ++ spec.valued text.now n) }
{
    let mut digits = itoa::Buffer::new();
    out.extend_from_slice(text)?;
    out.extend_from_slice(digits.format(n).as_bytes())
}

fn push_value(out: &mut Vec<u8>, text: &[u8], value: u32) -> Result<(), AllocError>
    ensures { OnOk result (out.new.items ≡ out.old.items ++ spec.valued text.now value) }
{
    push_valued(out, text, u64::from(value))
}

// Appends a label and its number, as a line.
#[tactic(auto, unfolding(crate::specs::Reports::valued, crate::specs::Reports::number_line))]
fn push_number_line(out: &mut Vec<u8>, label: &[u8], n: u64) -> Result<(), AllocError>
    ensures { OnOk result (out.new.items ≡ out.old.items ++ spec.number_line label.now n) }
{
    out.extend_from_slice(label)?;
    push_valued(out, b": ", n)?;
    out.push(b'\n')?;
    Ok(())
}

#[tactic(auto, unfolding(crate::specs::Reports::flag))]
fn flag(is: bool) -> &'static [u8]
    ensures { result.now ≡ spec.flag is }
{
    if is { b"yes" } else { b"no" }
}

#[tactic(auto, unfolding(crate::specs::Reports::physical_type))]
fn physical_type(options: &Options) -> &'static [u8]
    requires { HasForm options.now }
    ensures { result.now ≡ spec.physical_type options.now.physical }
{
    match options.form() {
        Physical::Triples => b"TRIPLES",
        Physical::Quads => b"QUADS",
        Physical::Graphs => b"GRAPHS",
    }
}

// Appends the line of the physical type, the numbers and the flags.
#[tactic(auto, unfolding(crate::specs::Reports::form_line))]
fn push_form_line(out: &mut Vec<u8>, bytes: &[u8], options: &Options) -> Result<(), AllocError>
    requires { HasForm options.now }
    ensures { OnOk result (out.new.items ≡ out.old.items ++ spec.form_line (options_seen bytes.now options.now)) }
{
    out.extend_from_slice(b"options: physical ")?;
    out.extend_from_slice(physical_type(options))?;
    push_value(out, b", logical ", options.logical)?;
    push_value(out, b", version ", options.version)?;
    out.extend_from_slice(b", generalized ")?;
    out.extend_from_slice(flag(options.generalized))?;
    out.extend_from_slice(b", star ")?;
    out.extend_from_slice(flag(options.star))?;
    out.push(b'\n')?;
    Ok(())
}

#[tactic(auto, unfolding(crate::specs::Reports::tables_line))]
fn push_tables_line(out: &mut Vec<u8>, bytes: &[u8], options: &Options) -> Result<(), AllocError>
    ensures { OnOk result (out.new.items ≡ out.old.items ++ spec.tables_line (options_seen bytes.now options.now)) }
{
    push_value(out, b"tables: names ", options.names)?;
    push_value(out, b", prefixes ", options.prefixes)?;
    push_value(out, b", datatypes ", options.datatypes)?;
    out.push(b'\n')?;
    Ok(())
}

#[tactic(auto, unfolding(crate::specs::Reports::stream_line))]
fn push_stream_line(out: &mut Vec<u8>, space: &Space, options: &Options) -> Result<(), AllocError>
    requires { IsInside space.now options.now.stream_name }
    ensures { OnOk result (out.new.items ≡ out.old.items ++ spec.stream_line (options_seen space.now options.now)) }
{
    out.extend_from_slice(b"stream name: ")?;
    push_string(out, space.text(options.stream_name))?;
    out.push(b'\n')?;
    Ok(())
}

#[tactic(auto, unfolding(crate::specs::Reports::options_lines))]
fn push_options(
    out: &mut Vec<u8>,
    space: &Space,
    options: &Option<Options>,
) -> Result<(), AllocError>
    requires { HaveAllPassed space.now options.now }
    ensures { OnOk result (out.new.items ≡ out.old.items ++ spec.options_lines (option_map (options_seen space.now) options.now)) }
{
    let Some(options) = options else {
        return out.extend_from_slice(b"options: none\n");
    };
    push_form_line(out, space.bytes(), options)?;
    push_tables_line(out, space.bytes(), options)?;
    push_stream_line(out, space, options)?;
    Ok(())
}

fn push_file_lines(out: &mut Vec<u8>, bytes: &[u8], survey: &Survey) -> Result<(), AllocError>
    ensures { OnOk result (out.new.items ≡ out.old.items ++ spec.file_lines (survey_seen bytes.now survey.now)) }
{
    push_number_line(out, b"bytes", survey.bytes)?;
    push_number_line(out, b"frames", survey.frames)?;
    push_number_line(out, b"metadata", survey.metadata)?;
    Ok(())
}

fn push_statement_lines(out: &mut Vec<u8>, bytes: &[u8], survey: &Survey) -> Result<(), AllocError>
    ensures { OnOk result (out.new.items ≡ out.old.items ++ spec.statement_lines (survey_seen bytes.now survey.now)) }
{
    push_number_line(out, b"options rows", survey.option_rows)?;
    push_number_line(out, b"triples", survey.triples)?;
    push_number_line(out, b"quads", survey.quads)?;
    Ok(())
}

fn push_graph_lines(out: &mut Vec<u8>, bytes: &[u8], survey: &Survey) -> Result<(), AllocError>
    ensures { OnOk result (out.new.items ≡ out.old.items ++ spec.graph_lines (survey_seen bytes.now survey.now)) }
{
    push_number_line(out, b"graph starts", survey.graph_starts)?;
    push_number_line(out, b"graph ends", survey.graph_ends)?;
    push_number_line(out, b"namespaces", survey.namespaces)?;
    Ok(())
}

fn push_entry_lines(out: &mut Vec<u8>, bytes: &[u8], survey: &Survey) -> Result<(), AllocError>
    ensures { OnOk result (out.new.items ≡ out.old.items ++ spec.entry_lines (survey_seen bytes.now survey.now)) }
{
    push_number_line(out, b"name entries", survey.names)?;
    push_number_line(out, b"prefix entries", survey.prefixes)?;
    push_number_line(out, b"datatype entries", survey.datatypes)?;
    Ok(())
}

/// The report of a survey over the file with these bytes. Takes the text's memory.
#[tactic(auto, unfolding(crate::specs::Reports::inspect_report))]
pub fn report_inspect(alloc: Global, survey: &Survey, space: &Space) -> Result<Text, AllocError>
    requires { HaveAllPassed space.now survey.now.options }
    ensures { IfOk result (λ text. text ≡ spec.inspect_report (survey_seen space.now survey.now)) }
{
    let mut out = Vec::new(alloc);
    push_file_lines(&mut out, space.bytes(), survey)?;
    push_options(&mut out, space, &survey.options)?;
    push_statement_lines(&mut out, space.bytes(), survey)?;
    push_graph_lines(&mut out, space.bytes(), survey)?;
    push_entry_lines(&mut out, space.bytes(), survey)?;
    Ok(Text::from_vec(out))
}

/// The report of a file without a fault. Takes the text's memory.
#[tactic(auto, unfolding(crate::specs::Reports::valid_report))]
pub fn report_valid(
    alloc: Global,
    frames: u64,
    statements: u64,
    namespaces: u64,
) -> Result<Text, AllocError>
    ensures { IfOk result (λ text. text ≡ spec.valid_report frames statements namespaces) }
{
    let mut out = Vec::new(alloc);
    push_valued(&mut out, b"valid: ", frames)?;
    push_valued(&mut out, b" frames, ", statements)?;
    push_valued(&mut out, b" statements, ", namespaces)?;
    out.extend_from_slice(b" namespaces\n")?;
    Ok(Text::from_vec(out))
}

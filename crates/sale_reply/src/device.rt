//! Writes what is shown and printed: the bodies of Display and Print, and of requests to show and to print.
ghost use Rattle.std.specs.Prelude.{map};
ghost use Rattle.json_text.specs.Canonical.{canonical};
ghost use Rattle.sale_reply.specs.Texts.{line_text};
ghost use Rattle.sale_reply.specs.inner.Appends.{Appends};
ghost use Rattle.sale_reply.specs.inner.CanonicalMembers.{content_prefix, more_outputs, more_lines, canonical_outputs, canonical_lines};
ghost use Rattle.sale_reply.specs.Reply.{output_result_tree, display_body, text_tree, display_request_body, print_request_body};

use crate::body::write_verdict;
use crate::buffer::Out;
use crate::reply::Shown;
use crate::text::status;

pub(crate) fn write_display(outputs: &[Shown], out: &mut Out)
    ensures { Appends out.old out.new (canonical (display_body outputs.now)) }
{
    out.raw(b"{");
    out.first_name(b"OutputResult");
    out.raw(b"[");
    write_outputs(outputs, out);
    out.raw(b"]}");
}

#[tactic(auto, unfolding(crate::specs::inner::CanonicalMembers::canonical_outputs))]
fn write_outputs(outputs: &[Shown], out: &mut Out)
    ensures { Appends out.old out.new (canonical_outputs outputs.now) }
{
    if let [first, others @ ..] = outputs {
        write_output(first, out);
        write_more_outputs(others, out);
    }
}

#[tactic(auto, unfolding(crate::specs::inner::CanonicalMembers::more_outputs))]
fn write_more_outputs(outputs: &[Shown], out: &mut Out)
    ensures { Appends out.old out.new (more_outputs outputs.now) }
{
    for shown in outputs {
        out.raw(b",");
        write_output(shown, out);
    }
}

fn write_output(shown: &Shown, out: &mut Out)
    ensures { Appends out.old out.new (canonical (output_result_tree shown.now)) }
{
    out.raw(b"{");
    out.first_text(b"Device", shown.device.as_bytes());
    out.next_text(b"InfoQualify", shown.qualify.as_bytes());
    out.next_name(b"Response");
    write_verdict(&shown.verdict, out);
    out.raw(b"}");
}

pub(crate) fn write_display_request(code: u8, out: &mut Out)
    ensures { Appends out.old out.new (canonical (display_request_body code)) }
{
    out.raw(b"{");
    out.first_name(b"DisplayOutput");
    out.raw(b"[{");
    out.first_name(b"ResponseRequiredFlag");
    out.raw(b"false");
    out.next_text(b"Device", b"CashierDisplay");
    out.next_text(b"InfoQualify", b"Status");
    out.next_name(b"OutputContent");
    open_content(out);
    out.raw(b"{");
    out.first_text(b"Text", &status(code));
    out.raw(b"}");
    out.raw(b"]}}]}");
}

/// An `OutputContent` up to the first of its texts.
fn open_content(out: &mut Out)
    ensures { Appends out.old out.new content_prefix }
{
    out.raw(b"{");
    out.first_text(b"OutputFormat", b"Text");
    out.next_name(b"OutputText");
    out.raw(b"[");
}

pub(crate) fn write_print_request(lines: &[&[u8]], out: &mut Out)
    ensures { Appends out.old out.new (canonical (print_request_body (map (λ line. line.now) lines.now))) }
{
    out.raw(b"{");
    out.first_name(b"PrintOutput");
    out.raw(b"{");
    out.first_text(b"DocumentQualifier", b"Document");
    out.next_text(b"ResponseMode", b"NotRequired");
    out.next_name(b"OutputContent");
    open_content(out);
    write_lines(lines, out);
    out.raw(b"]}}}");
}

#[tactic(auto, unfolding(crate::specs::inner::CanonicalMembers::canonical_lines))]
fn write_lines(lines: &[&[u8]], out: &mut Out)
    ensures { Appends out.old out.new (canonical_lines lines.now) }
{
    if let [first, others @ ..] = lines {
        write_line(first, out);
        write_more_lines(others, out);
    }
}

#[tactic(auto, unfolding(crate::specs::inner::CanonicalMembers::more_lines))]
fn write_more_lines(lines: &[&[u8]], out: &mut Out)
    ensures { Appends out.old out.new (more_lines lines.now) }
{
    for line in lines {
        out.raw(b",");
        write_line(line, out);
    }
}

fn write_line(line: &[u8], out: &mut Out)
    ensures { Appends out.old out.new (canonical (text_tree (line_text line.now))) }
{
    out.raw(b"{");
    out.first_name(b"Text");
    out.line(line);
    out.raw(b"}");
}

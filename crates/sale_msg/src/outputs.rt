//! The outputs of a Display.
ghost use Rattle.std.specs.Prelude.{◌≡◌, All, codes, map, option_map, IfOk};
ghost use Rattle.std.specs.List.{AllZip};
ghost use Rattle.std.specs.Option.{option_and_then};
ghost use Rattle.json_text.specs.Tree.{array_of};
ghost use Rattle.json_text.specs.ValueOf.{value_of};
ghost use Rattle.sale_msg.specs.Flaw.{AreMet, IsMet};
ghost use Rattle.sale_msg.specs.Grammar.{IsOutput, texts_of};
ghost use Rattle.sale_msg.specs.Path.{tree_at};
ghost use Rattle.sale_msg.specs.Table.{output_rows};

use crate::members::{chars, copied, flag_or_true, ident};
use crate::path::find_under;
use crate::paths;
use json_text::Json;
use sale_values::{Output, Outputs, Texts};
use std::alloc::{AllocError, Global};

/// The outputs that these objects are.
pub(crate) fn outputs(alloc: Global, parts: &[Json]) -> Result<Outputs, AllocError>
    requires { All (λ part. AreMet output_rows (value_of part)) parts.now }
    ensures { IfOk result (AllZip IsOutput (map value_of parts.now)) }
{
    let mut outputs = Vec::with_capacity(alloc, parts.len())?;
    for part in parts {
        outputs.push(output(alloc, part)?)?;
    }
    Ok(Outputs::new(outputs))
}

#[tactic(auto, unfolding(crate::specs::Flaw::IsMet, crate::specs::Path::tree_at))]
fn output(alloc: Global, part: &Json) -> Result<Output, AllocError>
    requires { AreMet output_rows (value_of part.now) }
    ensures { IfOk result (IsOutput (value_of part.now)) }
{
    let texts = texts_or_none(alloc, part)?;
    Ok(Output {
        device: ident(find_under(part, paths::OUTPUT_DEVICE_NAMES)),
        qualify: ident(find_under(part, paths::OUTPUT_QUALIFY_NAMES)),
        required: flag_or_true(find_under(part, paths::OUTPUT_FLAG_NAMES)),
        texts,
    })
}

/// The texts of an output; `None` where it has none.
#[tactic(auto, unfolding(crate::specs::Path::tree_at))]
fn texts_or_none(alloc: Global, part: &Json) -> Result<Option<Texts>, AllocError>
    ensures { IfOk result (λ texts. option_map texts_of
        (option_and_then array_of (tree_at (codes "OutputContent.OutputText") (value_of part.now))) ≡ texts) }
{
    match find_under(part, paths::OUTPUT_TEXTS_NAMES) {
        None => Ok(None),
        Some(list) => match list.as_list() {
            None => Ok(None),
            Some(elements) => Ok(Some(texts(alloc, elements)?)),
        },
    }
}

/// The texts of these objects.
#[tactic(auto, unfolding(crate::specs::Path::tree_at))]
fn texts(alloc: Global, elements: &[Json]) -> Result<Texts, AllocError>
    ensures { IfOk result (λ texts. texts ≡ texts_of (map value_of elements.now)) }
{
    let mut texts = Vec::with_capacity(alloc, elements.len())?;
    for element in elements {
        if let Some(text) = chars(find_under(element, paths::TEXT_NAMES)) {
            texts.push(copied(alloc, text)?)?;
        }
    }
    Ok(Texts::new(texts))
}

//! Writing selectors as CSS.

ghost use Rattle.std.specs.Prelude.{◌≡◌, ◌++◌, ◌<◌, false, true};
ghost use Rattle.std.specs.Prelude.{encode_utf8_all, flat_map};
ghost use Rattle.std.specs.Prelude.{IfOk, codes, if◌then◌else◌, string_bytes};
ghost use Rattle.dom_selectors.specs.Adding.{Adds};
ghost use Rattle.dom_selectors.specs.Css.{css_text};
ghost use Rattle.dom_selectors.specs.SelectorCss.{asked_css, case_css, combinator_css, comma_css};
ghost use Rattle.dom_selectors.specs.SelectorCss.{compound_css, function_css, is_plain};
ghost use Rattle.dom_selectors.specs.SelectorCss.{kind_css, lead_css, step_css};
ghost use Rattle.dom_selectors.specs.SelectorCss.{list_css, lists_css, name_char, name_css};
ghost use Rattle.dom_selectors.specs.SelectorCss.{nth_css, operator_css, part_css, selector_css};
ghost use Rattle.dom_selectors.specs.SelectorCss.{selectors_css, signed_css, steps_css};
ghost use Rattle.dom_selectors.specs.ValuesAsTrees.{read_compound, read_list, read_lists};
ghost use Rattle.dom_selectors.specs.ValuesAsTrees.{read_nested, read_selector, read_step};
ghost use Rattle.dom_selectors.specs.ValuesAsTrees.{read_steps};

use crate::css::{ToCss, push_number, push_string};
use crate::names::{is_name_char, is_name_start};
use crate::parser::letters;
use crate::syntax::{
    AttrOperator, Attribute, Combinator, Comparison, Compound, Nested, Part, Position, Selector,
    Step,
};
use dom_nodes::case_sensitivity::CaseSensitivity;
use dom_nodes::fault::OutOfMemory;
use dom_nodes::indexes::{IndexKind, Nth, Signed};
use std::alloc::{AllocError, Global};

impl ToCss for Selector {
    ghost css = { λ selector. selector_css false (read_selector selector) };

    fn to_css(&self, out: &mut String) -> Result<(), OutOfMemory> {
        let written = written(*out.allocator(), self)?;
        out.push_str(written.as_str())?;
        Ok(())
    }
}

/// Returns the text of the selector.
fn written(alloc: Global, selector: &Selector) -> Result<String, OutOfMemory>
    ensures { IfOk result
        (λ it. string_bytes it ≡ selector_css false (read_selector selector.now)) }
{
    let mut written = String::new(alloc);
    push_selector(&mut written, false, selector)?;
    Ok(written)
}

fn push_text(out: &mut String, text: &str) -> Result<(), OutOfMemory>
    ensures { Adds out.old out.new result text.now }
{
    out.push_str(text)?;
    Ok(())
}

/// Returns whether the character needs no escape in an identifier.
fn is_plain(is_first: bool, c: char) -> bool
    ensures is { result ≡ is_plain is_first c }
    ensures low { result ≡ false → c < 128 }
{
    if is_first {
        return is_name_start(c);
    }
    is_name_char(c)
}

fn push_name_char(out: &mut String, c: char, is_first: bool) -> Result<(), AllocError>
    ensures { Adds out.old out.new result (encode_utf8_all (name_char is_first c)) }
{
    if is_plain(is_first, c) {
        return out.push(c);
    }
    if c == '\0' {
        return out.push('\u{fffd}');
    }
    push_number(out, c)
}

/// Appends the characters of an identifier after the first.
fn push_name_chars(out: &mut String, letters: &[char]) -> Result<(), AllocError>
    ensures { Adds out.old out.new result
        (encode_utf8_all (flat_map (name_char false) letters.now)) }
{
    for c in letters {
        push_name_char(out, *c, false)?;
    }
    Ok(())
}

fn push_name(out: &mut String, name: &str) -> Result<(), OutOfMemory>
    ensures { Adds out.old out.new result (name_css name.now) }
{
    let letters = letters(*out.allocator(), name)?;
    let Some((first, rest)) = letters.split_first() else {
        return Ok(());
    };
    push_name_char(out, *first, true)?;
    push_name_chars(out, rest)?;
    Ok(())
}

fn operator_text(operator: AttrOperator) -> &'static str
    ensures { result.now ≡ operator_css operator }
{
    match operator {
        AttrOperator::Equals => "=",
        AttrOperator::Includes => "~=",
        AttrOperator::DashMatch => "|=",
        AttrOperator::Prefix => "^=",
        AttrOperator::Suffix => "$=",
        AttrOperator::Substring => "*=",
    }
}

fn case_text(case: CaseSensitivity) -> &'static str
    ensures { result.now ≡ case_css case }
{
    match case {
        CaseSensitivity::CaseSensitive => "",
        CaseSensitivity::AsciiCaseInsensitive => " i",
    }
}

fn push_asked(out: &mut String, asked: &Option<Comparison>) -> Result<(), OutOfMemory>
    ensures { Adds out.old out.new result (asked_css asked.now) }
{
    let Some(comparison) = asked else {
        return Ok(());
    };
    push_text(out, operator_text(comparison.operator))?;
    push_string(out, comparison.value.as_str())?;
    push_text(out, case_text(comparison.case_sensitivity))
}

fn push_attribute(out: &mut String, attribute: &Attribute) -> Result<(), OutOfMemory>
    ensures { Adds out.old out.new result (part_css (Part.Attribute attribute.now)) }
{
    push_text(out, "[")?;
    push_name(out, attribute.name.as_str())?;
    push_asked(out, &attribute.comparison)?;
    push_text(out, "]")
}

/// Returns the sign of a number: `-` if it is negative, and otherwise `sign`.
fn sign_of<'a>(number: Signed, sign: &'a str) -> &'a str
    ensures { result.now ≡ (if number.is_negative then codes "-" else sign.now) }
{
    if number.is_negative { "-" } else { sign }
}

fn push_signed(out: &mut String, sign: &str, number: Signed) -> Result<(), OutOfMemory>
    ensures { Adds out.old out.new result (signed_css sign.now number) }
{
    push_text(out, sign_of(number, sign))?;
    let digits = number.magnitude.to_string(*out.allocator())?;
    push_text(out, digits.as_str())
}

fn push_nth(out: &mut String, nth: Nth) -> Result<(), OutOfMemory>
    ensures { Adds out.old out.new result (nth_css nth) }
{
    push_signed(out, "", nth.a)?;
    push_text(out, "n")?;
    push_signed(out, "+", nth.b)
}

fn kind_text(kind: IndexKind) -> &'static str
    ensures { result.now ≡ kind_css kind }
{
    match kind {
        IndexKind::Child => ":nth-child(",
        IndexKind::LastChild => ":nth-last-child(",
        IndexKind::OfType => ":nth-of-type(",
        IndexKind::LastOfType => ":nth-last-of-type(",
    }
}

fn push_position(out: &mut String, position: Position) -> Result<(), OutOfMemory>
    ensures { Adds out.old out.new result (part_css (Part.Position position)) }
{
    push_text(out, kind_text(position.kind))?;
    push_nth(out, position.nth)?;
    push_text(out, ")")
}

/// Appends a function whose argument is a string.
fn push_asked_text(out: &mut String, function: &str, text: &str) -> Result<(), OutOfMemory>
    ensures { Adds out.old out.new result (function_css function.now (css_text text.now)) }
{
    push_text(out, function)?;
    push_string(out, text)?;
    push_text(out, ")")
}

/// Appends a mark and a name.
fn push_marked(out: &mut String, mark: &str, name: &str) -> Result<(), OutOfMemory>
    ensures { Adds out.old out.new result (mark.now ++ name_css name.now) }
{
    push_text(out, mark)?;
    push_name(out, name)
}

fn push_part(out: &mut String, part: &Part) -> Result<(), OutOfMemory>
    ensures { Adds out.old out.new result (part_css part.now) }
{
    match part {
        Part::Universal => push_text(out, "*"),
        Part::Type(name) => push_name(out, name.as_str()),
        Part::Id(value) => push_marked(out, "#", value.as_str()),
        Part::Class(word) => push_marked(out, ".", word.as_str()),
        Part::Attribute(attribute) => push_attribute(out, attribute),
        Part::Root => push_text(out, ":root"),
        Part::Link => push_text(out, ":link"),
        Part::Never => push_text(out, ":hover"),
        Part::Empty => push_text(out, ":empty"),
        Part::OnlyText => push_text(out, ":only-text"),
        Part::HasText(text) => push_asked_text(out, ":has-text(", text.as_str()),
        Part::Contains(text) => push_asked_text(out, ":contains(", text.as_str()),
        Part::Position(position) => push_position(out, *position),
    }
}

fn push_parts(out: &mut String, parts: &[Part]) -> Result<(), OutOfMemory>
    ensures { Adds out.old out.new result (flat_map part_css parts.now) }
{
    for part in parts {
        push_part(out, part)?;
    }
    Ok(())
}

fn combinator_text(combinator: Combinator) -> &'static str
    ensures { result.now ≡ combinator_css combinator }
{
    match combinator {
        Combinator::Descendant => " ",
        Combinator::Child => " > ",
        Combinator::Adjacent => " + ",
        Combinator::Sibling => " ~ ",
    }
}

fn lead_text(is_relative: bool, lead: Combinator) -> &'static str
    ensures { result.now ≡ lead_css is_relative lead }
{
    if !is_relative {
        return "";
    }
    match lead {
        Combinator::Descendant => "",
        Combinator::Child => "> ",
        Combinator::Adjacent => "+ ",
        Combinator::Sibling => "~ ",
    }
}

fn comma_text(is_first: bool) -> &'static str
    ensures { result.now ≡ comma_css is_first }
{
    if is_first {
        return "";
    }
    ", "
}

#[cycle(writing)]
fn push_compound(out: &mut String, compound: &Compound) -> Result<(), OutOfMemory>
    ensures { Adds out.old out.new result (compound_css (read_compound compound.now)) }
{
    push_parts(out, &compound.parts)?;
    push_lists(out, &compound.nested)
}

#[cycle(writing)]
fn push_lists(out: &mut String, lists: &[Nested]) -> Result<(), OutOfMemory>
    ensures { Adds out.old out.new result (lists_css (read_lists lists.now)) }
{
    for list in lists {
        push_list(out, list)?;
    }
    Ok(())
}

#[cycle(writing)]
fn push_list(out: &mut String, list: &Nested) -> Result<(), OutOfMemory>
    ensures { Adds out.old out.new result (list_css (read_nested list.now)) }
{
    match list {
        Nested::Is(selectors) => push_enclosed(out, ":is(", false, selectors),
        Nested::Not(selectors) => push_enclosed(out, ":not(", false, selectors),
        Nested::Has(selectors) => push_enclosed(out, ":has(", true, selectors),
    }
}

/// Appends a function whose argument is a selector list.
#[cycle(writing)]
fn push_enclosed(
    out: &mut String,
    function: &str,
    is_relative: bool,
    selectors: &[Selector],
) -> Result<(), OutOfMemory>
    ensures { Adds out.old out.new result
        (function_css function.now (selectors_css true is_relative (read_list selectors.now))) }
{
    push_text(out, function)?;
    push_selectors(out, is_relative, selectors)?;
    push_text(out, ")")
}

#[cycle(writing)]
fn push_selectors(
    out: &mut String,
    is_relative: bool,
    selectors: &[Selector],
) -> Result<(), OutOfMemory>
    ensures { Adds out.old out.new result
        (selectors_css true is_relative (read_list selectors.now)) }
{
    let mut is_first = true;
    for selector in selectors {
        push_text(out, comma_text(is_first))?;
        push_selector(out, is_relative, selector)?;
        is_first = false;
    }
    Ok(())
}

#[cycle(writing)]
fn push_selector(
    out: &mut String,
    is_relative: bool,
    selector: &Selector,
) -> Result<(), OutOfMemory>
    ensures { Adds out.old out.new result (selector_css is_relative (read_selector selector.now)) }
{
    push_text(out, lead_text(is_relative, selector.lead))?;
    push_compound(out, &selector.first)?;
    push_steps(out, &selector.rest)
}

#[cycle(writing)]
fn push_steps(out: &mut String, steps: &[Step]) -> Result<(), OutOfMemory>
    ensures { Adds out.old out.new result (steps_css (read_steps steps.now)) }
{
    for step in steps {
        push_step(out, step)?;
    }
    Ok(())
}

#[cycle(writing)]
fn push_step(out: &mut String, step: &Step) -> Result<(), OutOfMemory>
    ensures { Adds out.old out.new result (step_css (read_step step.now)) }
{
    push_text(out, combinator_text(step.combinator))?;
    push_compound(out, &step.compound)
}

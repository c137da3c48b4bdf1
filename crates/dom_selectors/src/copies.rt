//! Copies of selectors. Each call fails only when memory runs out.

ghost use Rattle.std.specs.Prelude.{◌≡◌, map, IfOk};
ghost use Rattle.dom_selectors.specs.Adding.{Pushes};
ghost use Rattle.dom_selectors.specs.ValuesAsTrees.{read_compound, read_nested};
ghost use Rattle.dom_selectors.specs.ValuesAsTrees.{read_selector, read_step};

use crate::syntax::{Attribute, Comparison, Compound, Nested, Part, Selector, Step};
use dom_nodes::fault::OutOfMemory;
use std::alloc::Global;

fn copy_comparison(comparison: &Comparison) -> Result<Comparison, OutOfMemory>
    ensures { IfOk result (λ made. made ≡ comparison.now) }
{
    let value = comparison.value.try_clone()?;
    Ok(Comparison {
        operator: comparison.operator,
        value,
        case_sensitivity: comparison.case_sensitivity,
    })
}

fn copy_asked(asked: &Option<Comparison>) -> Result<Option<Comparison>, OutOfMemory>
    ensures { IfOk result (λ made. made ≡ asked.now) }
{
    match asked {
        Some(comparison) => Ok(Some(copy_comparison(comparison)?)),
        None => Ok(None),
    }
}

fn copy_attribute(attribute: &Attribute) -> Result<Attribute, OutOfMemory>
    ensures { IfOk result (λ made. made ≡ attribute.now) }
{
    let name = attribute.name.try_clone()?;
    let comparison = copy_asked(&attribute.comparison)?;
    Ok(Attribute { name, comparison })
}

fn copy_part(part: &Part) -> Result<Part, OutOfMemory>
    ensures { IfOk result (λ made. made ≡ part.now) }
{
    Ok(match part {
        Part::Universal => Part::Universal,
        Part::Type(name) => Part::Type(name.try_clone()?),
        Part::Id(value) => Part::Id(value.try_clone()?),
        Part::Class(word) => Part::Class(word.try_clone()?),
        Part::Attribute(attribute) => Part::Attribute(copy_attribute(attribute)?),
        Part::Root => Part::Root,
        Part::Link => Part::Link,
        Part::Never => Part::Never,
        Part::Empty => Part::Empty,
        Part::OnlyText => Part::OnlyText,
        Part::HasText(text) => Part::HasText(text.try_clone()?),
        Part::Contains(text) => Part::Contains(text.try_clone()?),
        Part::Position(position) => Part::Position(*position),
    })
}

fn copy_parts(alloc: Global, parts: &[Part]) -> Result<Vec<Part>, OutOfMemory>
    ensures { IfOk result (λ made. made.items ≡ parts.now) }
{
    let mut made = Vec::new(alloc);
    for part in parts {
        made.push(copy_part(part)?)?;
    }
    Ok(made)
}

/// Appends a list to the lists of a compound selector.
pub(crate) fn push_list(lists: &mut Vec<Nested>, list: Nested) -> Result<(), OutOfMemory>
    ensures { Pushes read_nested lists.old.items lists.new.items result list }
{
    lists.push(list)?;
    Ok(())
}

fn push_step(steps: &mut Vec<Step>, step: Step) -> Result<(), OutOfMemory>
    ensures { Pushes read_step steps.old.items steps.new.items result step }
{
    steps.push(step)?;
    Ok(())
}

fn push_selector(selectors: &mut Vec<Selector>, selector: Selector) -> Result<(), OutOfMemory>
    ensures { Pushes read_selector selectors.old.items selectors.new.items result selector }
{
    selectors.push(selector)?;
    Ok(())
}

#[cycle(copying)]
fn copy_compound(alloc: Global, compound: &Compound) -> Result<Compound, OutOfMemory>
    ensures { IfOk result (λ made. read_compound made ≡ read_compound compound.now) }
{
    let parts = copy_parts(alloc, &compound.parts)?;
    let nested = copy_lists(alloc, &compound.nested)?;
    Ok(Compound { parts, nested })
}

#[cycle(copying)]
fn copy_lists(alloc: Global, lists: &[Nested]) -> Result<Vec<Nested>, OutOfMemory>
    ensures { IfOk result (λ made. map read_nested made.items ≡ map read_nested lists.now) }
{
    let mut made = Vec::new(alloc);
    for list in lists {
        let copy = copy_list(alloc, list)?;
        push_list(&mut made, copy)?;
    }
    Ok(made)
}

#[cycle(copying)]
fn copy_list(alloc: Global, list: &Nested) -> Result<Nested, OutOfMemory>
    ensures { IfOk result (λ made. read_nested made ≡ read_nested list.now) }
{
    match list {
        Nested::Is(selectors) => Ok(Nested::Is(copy_selectors(alloc, selectors)?)),
        Nested::Not(selectors) => Ok(Nested::Not(copy_selectors(alloc, selectors)?)),
        Nested::Has(selectors) => Ok(Nested::Has(copy_selectors(alloc, selectors)?)),
    }
}

/// Returns a copy of the selectors. The depth of the recursion is that of nested lists, which the
/// parser limits.
#[cycle(copying)]
pub fn copy_selectors(alloc: Global, selectors: &[Selector]) -> Result<Vec<Selector>, OutOfMemory>
    ensures { IfOk result (λ made. map read_selector made.items ≡ map read_selector selectors.now) }
{
    let mut made = Vec::new(alloc);
    for selector in selectors {
        let copy = copy_selector(alloc, selector)?;
        push_selector(&mut made, copy)?;
    }
    Ok(made)
}

#[cycle(copying)]
fn copy_selector(alloc: Global, selector: &Selector) -> Result<Selector, OutOfMemory>
    ensures { IfOk result (λ made. read_selector made ≡ read_selector selector.now) }
{
    let first = copy_compound(alloc, &selector.first)?;
    let rest = copy_steps(alloc, &selector.rest)?;
    Ok(Selector {
        lead: selector.lead,
        first,
        rest,
    })
}

impl Selector {
    /// Returns a copy of the selector. Fails only when memory runs out.
    pub fn try_clone(&self) -> Result<Selector, OutOfMemory>
        ensures { IfOk result (λ made. read_selector made ≡ read_selector self.now) }
    {
        copy_selector(*self.rest.allocator(), self)
    }
}

#[cycle(copying)]
fn copy_steps(alloc: Global, steps: &[Step]) -> Result<Vec<Step>, OutOfMemory>
    ensures { IfOk result (λ made. map read_step made.items ≡ map read_step steps.now) }
{
    let mut made = Vec::new(alloc);
    for step in steps {
        let copy = copy_step(alloc, step)?;
        push_step(&mut made, copy)?;
    }
    Ok(made)
}

#[cycle(copying)]
fn copy_step(alloc: Global, step: &Step) -> Result<Step, OutOfMemory>
    ensures { IfOk result (λ made. read_step made ≡ read_step step.now) }
{
    let compound = copy_compound(alloc, &step.compound)?;
    Ok(Step {
        combinator: step.combinator,
        compound,
    })
}

//! The storage of an element's attributes. Most elements have one or two, which lie in a reference
//! counted block that copies of the element share, or inside one list that holds the attributes of
//! many elements. Three lie in a block of their own, and more in a vector.

ghost use Rattle.std.specs.Prelude.{◌≡◌, ◌<◌, ◌≤◌, ◌∷◌, ◌++◌, [], IfOk, IfSome, OnErr, OnOk, None};
ghost use Rattle.std.specs.Prelude.{Some};
ghost use Rattle.std.specs.Prelude.{◌+◌, ◌-◌, drop, slice_set, take};
ghost use Rattle.std.specs.Rc.{rc_value};
ghost use Rattle.std.specs.Prelude.{filter, length, position, List, ℕ};
ghost use Rattle.std.specs.List.{list_any};
ghost use Rattle.dom_nodes.specs.AttrForms.{form_attrs};
ghost use Rattle.dom_nodes.specs.Kept.{keeps};
ghost use Rattle.dom_nodes.specs.Changes.{is_attr_named, with_attr};

use super::attributes::{attr_position, plain_attr};
use super::missing::has_attr_named;
use crate::copies::{attr_copy, push_attr};
use crate::fault::OutOfMemory;
use crate::name::{Attr, LocalName, QualName};
use crate::text::Text;
use crate::words::is_one_of;
use std::alloc::Global;
use std::mem;
use std::rc::Rc;

/// How the attributes of an element are stored.
#[derive(Drop)]
pub(super) enum AttrsForm {
    None,
    One(Rc<[Attr; 1]>),
    Two(Rc<[Attr; 2]>),
    /// No attribute yet, but room for two.
    Room(Rc<[Attr; 2]>),
    /// The first attribute of the block, after the second one was removed, or after an attribute
    /// was put into `Room`.
    First(Rc<[Attr; 2]>),
    /// The second attribute of the block, after the first one was removed.
    Second(Rc<[Attr; 2]>),
    /// The one attribute at this index of a shared list. The index has more bits here than in
    /// `TwoOf`, so that it is also large enough for the second of any two.
    OneOf(u32, Rc<Vec<Attr>>),
    /// The two attributes from this index on in a shared list.
    TwoOf(u16, Rc<Vec<Attr>>),
    /// The first attributes of a block of three that nothing else shares. The integer counts them.
    Few(u32, Three),
    /// A list of any other length, which nothing else shares. It lies behind a pointer, so that the
    /// enum is no larger than its other variants need.
    Own(Box<Vec<Attr>>),
}

/// A block of three attributes.
pub(super) struct Three {
    items: Box<[Attr; 3]>,
}

/// Destructures by hand, so that dropping the other storage forms takes fewer steps.
impl Drop for Three {
    #[inline(never)]
    fn drop(self) {
        let Three { items } = self;
        drop(items);
    }
}

/// The largest index that `OneOf` can store.
const MOST_ONE: usize = 4294967295;

/// The largest index that `TwoOf` can store.
const MOST_TWO: usize = 65535;

/// Which attributes a removal keeps. Names of `&str` are local names.
#[derive(Clone, Copy)]
pub(super) enum Kept<'a> {
    /// Keeps the attributes that don't have this local name.
    AllBut(&'a str),
    /// Keeps the attributes whose local name isn't in the list.
    NoneOf(&'a [&'a str]),
    /// Keeps the attributes whose local name is in the list.
    OneOf(&'a [&'a str]),
    /// Keeps the attributes whose name (prefix, namespace and local name) differs from the names of
    /// all of these.
    MissingIn(&'a [Attr]),
}

impl Kept<'_> {
    fn keeps(&self, attr: &Attr) -> bool
        ensures { result ≡ keeps self.now attr.now }
    {
        match self {
            Kept::AllBut(name) => attr.name.local().as_str() != *name,
            Kept::NoneOf(names) => !is_one_of(attr.name.local().as_str(), names),
            Kept::OneOf(names) => is_one_of(attr.name.local().as_str(), names),
            Kept::MissingIn(attrs) => !has_attr_named(attrs, &attr.name),
        }
    }

    /// Returns whether at least one of the attributes is kept.
    fn keeps_any(&self, attrs: &[Attr]) -> bool
        ensures { result ≡ list_any (keeps self.now) attrs.now }
    {
        attrs.iter().any(|attr| self.keeps(attr))
    }
}

impl AttrsForm {
    /// Returns the storage of one attribute.
    #[inline(always)]
    pub(super) fn one(alloc: Global, attr: Attr) -> Result<AttrsForm, OutOfMemory>
        ensures { IfOk result (λ form. form_attrs form ≡ attr ∷ []) }
    {
        Ok(AttrsForm::One(Rc::new(alloc, [attr])?))
    }

    /// Returns the storage of two attributes.
    fn two(alloc: Global, first: Attr, second: Attr) -> Result<AttrsForm, OutOfMemory>
        ensures { IfOk result (λ form. form_attrs form ≡ first ∷ second ∷ []) }
    {
        Ok(AttrsForm::Two(Rc::new(alloc, [first, second])?))
    }

    /// Returns the storage of three attributes.
    #[inline(always)]
    fn three(alloc: Global, items: [Attr; 3]) -> Result<AttrsForm, OutOfMemory>
        ensures { IfOk result (λ form. form_attrs form ≡ items) }
    {
        let items = Box::new(alloc, items)?;
        Ok(AttrsForm::Few(3, Three { items }))
    }

    /// Moves all attributes out of a vector of at most three. The vector keeps its memory and is
    /// empty after an error too; the attributes are then dropped.
    pub(super) fn popped(alloc: Global, items: &mut Vec<Attr>) -> Result<AttrsForm, OutOfMemory>
        requires { length items.old.items ≤ 3 }
        ensures taken { IfOk result (λ form. form_attrs form ≡ items.old.items) }
        ensures emptied { items.new.items ≡ [] }
    {
        let Some(third) = items.pop() else {
            return Ok(AttrsForm::None);
        };
        let Some(second) = items.pop() else {
            return AttrsForm::one(alloc, third);
        };
        let Some(first) = items.pop() else {
            return AttrsForm::two(alloc, second, third);
        };
        AttrsForm::three(alloc, [first, second, third])
    }

    /// Returns an empty list with room for two attributes.
    pub(super) fn room(alloc: Global) -> Result<AttrsForm, OutOfMemory>
        ensures { IfOk result (λ form. form_attrs form ≡ []) }
    {
        Ok(AttrsForm::Room(Rc::new(alloc, [empty(alloc), empty(alloc)])?))
    }

    /// Appends the attribute if the storage has a free place in a block of two that nothing else
    /// shares, and returns `None`. Otherwise it returns the attribute, and the list is unchanged.
    #[inline(always)]
    pub(super) fn fill(&mut self, attr: Attr) -> Option<Attr>
        ensures put { result ≡ None → form_attrs self.new ≡ form_attrs self.old ++ attr ∷ [] }
        ensures back { IfSome result (λ left. left ≡ attr) }
        ensures same { IfSome result (λ _. form_attrs self.new ≡ form_attrs self.old) }
    {
        match mem::replace(self, AttrsForm::None) {
            AttrsForm::Room(mut list) => {
                if let Some(attr) = put(&mut list, 0, attr) {
                    *self = AttrsForm::Room(list);
                    return Some(attr);
                }
                *self = AttrsForm::First(list);
                None
            }
            AttrsForm::First(mut list) => {
                if let Some(attr) = put(&mut list, 1, attr) {
                    *self = AttrsForm::First(list);
                    return Some(attr);
                }
                *self = AttrsForm::Two(list);
                None
            }
            form => {
                *self = form;
                Some(attr)
            }
        }
    }

    /// Returns the attributes of `list` from index `from` up to, but not including, `to`. One or
    /// two are shared with `list` where the index fits; more are copied.
    pub(super) fn part_of(
        alloc: Global,
        list: &Rc<Vec<Attr>>,
        from: usize,
        to: usize,
    ) -> Result<AttrsForm, OutOfMemory>
        ensures { IfOk result (λ form.
            form_attrs form ≡ take (to - from) (drop from (rc_value list.now).items)) }
    {
        let count = to.saturating_sub(from);
        if count == 0 {
            return Ok(AttrsForm::None);
        }
        if count == 1 && from <= MOST_ONE {
            return Ok(AttrsForm::OneOf(from as u32, Rc::clone(list)?));
        }
        if count == 2 && from <= MOST_TWO {
            return Ok(AttrsForm::TwoOf(from as u16, Rc::clone(list)?));
        }
        AttrsForm::with_room(alloc, stretch(list.as_slice(), from, count), 0)
    }

    /// Returns the storage of a vector of attributes, which nothing else shares.
    pub(super) fn own(alloc: Global, items: Vec<Attr>) -> Result<AttrsForm, OutOfMemory>
        ensures { IfOk result (λ form. form_attrs form ≡ items.items) }
    {
        Ok(AttrsForm::Own(Box::new(alloc, items)?))
    }

    /// Returns the attributes, in order.
    #[inline(always)]
    pub(super) fn as_slice(&self) -> &[Attr]
        ensures { result.now ≡ form_attrs self.now }
    {
        match self {
            AttrsForm::None => &[],
            AttrsForm::One(list) => &list[..],
            AttrsForm::Two(list) => &list[..],
            AttrsForm::Room(_) => &[],
            AttrsForm::First(list) => &list[..1],
            AttrsForm::Second(list) => {
                let both = &list[..];
                &both[1..]
            }
            AttrsForm::OneOf(place, list) => stretch(list.as_slice(), *place as usize, 1),
            AttrsForm::TwoOf(place, list) => stretch(list.as_slice(), *place as usize, 2),
            AttrsForm::Few(count, list) => stretch(&list.items[..], 0, *count as usize),
            AttrsForm::Own(list) => list.as_slice(),
        }
    }

    /// Returns a copy. A block of two places and a place in a shared list are shared; other lists
    /// are copied.
    #[inline(always)]
    pub(super) fn try_clone(&self, alloc: Global) -> Result<AttrsForm, OutOfMemory>
        ensures { IfOk result (λ form. form_attrs form ≡ form_attrs self.now) }
    {
        match self {
            AttrsForm::None => Ok(AttrsForm::None),
            AttrsForm::One(list) => Ok(AttrsForm::One(Rc::clone(list)?)),
            AttrsForm::Two(list) => Ok(AttrsForm::Two(Rc::clone(list)?)),
            AttrsForm::First(list) => Ok(AttrsForm::First(Rc::clone(list)?)),
            AttrsForm::OneOf(place, list) => Ok(AttrsForm::OneOf(*place, Rc::clone(list)?)),
            AttrsForm::TwoOf(place, list) => Ok(AttrsForm::TwoOf(*place, Rc::clone(list)?)),
            _ => self.clone_of_rare(alloc),
        }
    }

    /// Returns a copy of a list in one of the rare storage forms, those that `try_clone` has no
    /// case for.
    fn clone_of_rare(&self, alloc: Global) -> Result<AttrsForm, OutOfMemory>
        ensures { IfOk result (λ form. form_attrs form ≡ form_attrs self.now) }
    {
        match self {
            AttrsForm::Room(_) => Ok(AttrsForm::None),
            AttrsForm::Second(list) => Ok(AttrsForm::Second(Rc::clone(list)?)),
            _ => AttrsForm::with_room(alloc, self.as_slice(), 0),
        }
    }

    /// Returns copies of the attributes in storage that nothing else shares, with room for
    /// `additional` more.
    pub(super) fn with_room(
        alloc: Global,
        attrs: &[Attr],
        additional: usize,
    ) -> Result<AttrsForm, OutOfMemory>
        ensures { IfOk result (λ form. form_attrs form ≡ attrs.now) }
    {
        if attrs.len() == 3 && additional == 0 {
            return AttrsForm::three_copies(alloc, attrs);
        }
        AttrsForm::own(alloc, copied(alloc, attrs, additional)?)
    }

    /// Returns copies of three attributes in a block of their own.
    #[inline(never)]
    fn three_copies(alloc: Global, attrs: &[Attr]) -> Result<AttrsForm, OutOfMemory>
        requires { length attrs.now ≡ 3 }
        ensures { IfOk result (λ form. form_attrs form ≡ attrs.now) }
    {
        let items = [
            attr_copy(&attrs[0])?,
            attr_copy(&attrs[1])?,
            attr_copy(&attrs[2])?,
        ];
        AttrsForm::three(alloc, items)
    }

    /// Returns copies of the attributes with `attr` appended.
    pub(super) fn lengthened(
        alloc: Global,
        attrs: &[Attr],
        attr: Attr,
    ) -> Result<AttrsForm, OutOfMemory>
        ensures { IfOk result (λ form. form_attrs form ≡ attrs.now ++ attr ∷ []) }
    {
        if attrs.is_empty() {
            return AttrsForm::one(alloc, attr);
        }
        if attrs.len() == 1 {
            return AttrsForm::two(alloc, attrs[0].try_clone()?, attr);
        }
        let mut items = copied(alloc, attrs, attrs.len())?;
        items.push(attr)?;
        AttrsForm::own(alloc, items)
    }

    /// Returns copies of the attributes in which the first one with this local name has the value.
    /// When there is none, an attribute without prefix and namespace is appended.
    pub(super) fn with_attr(
        alloc: Global,
        attrs: &[Attr],
        name: &str,
        value: Text,
    ) -> Result<AttrsForm, OutOfMemory>
        ensures { IfOk result (λ form. form_attrs form ≡ with_attr name.now value attrs.now) }
    {
        match attr_position(attrs, name) {
            Some(place) => AttrsForm::with_value(alloc, attrs, place, value),
            None => AttrsForm::lengthened(alloc, attrs, plain_attr(alloc, name, value)?),
        }
    }

    /// Sets the value of the first attribute with this local name and returns `None`, if the list
    /// is in a block of three and has such an attribute. Otherwise it returns the value, and the
    /// list is unchanged.
    pub(super) fn set_few(&mut self, name: &str, value: Text) -> Option<Text>
        ensures put { result ≡ None
            → form_attrs self.new ≡ with_attr name.now value (form_attrs self.old) }
        ensures back { IfSome result (λ left. left ≡ value) }
        ensures same { IfSome result (λ _. form_attrs self.new ≡ form_attrs self.old) }
    {
        let AttrsForm::Few(count, list) = self else {
            return Some(value);
        };
        let Some(place) = attr_position(stretch(&list.items[..], 0, *count as usize), name) else {
            return Some(value);
        };
        list.items[place].value = value;
        None
    }

    /// Returns copies of the attributes in which the one at index `place` has the value.
    fn with_value(
        alloc: Global,
        attrs: &[Attr],
        place: usize,
        value: Text,
    ) -> Result<AttrsForm, OutOfMemory>
        requires { place < length attrs.now }
        ensures { (name : List ℕ) → position (is_attr_named name) attrs.now ≡ Some place
            → IfOk result (λ form. form_attrs form ≡ with_attr name value attrs.now) }
    {
        if attrs.len() > 2 {
            let mut items = copied(alloc, attrs, 0)?;
            items[place].value = value;
            return AttrsForm::own(alloc, items);
        }
        let name = attrs[place].name.try_clone()?;
        let attr = Attr { name, value };
        if attrs.len() == 1 {
            return AttrsForm::one(alloc, attr);
        }
        if place == 0 {
            AttrsForm::two(alloc, attr, attrs[1].try_clone()?)
        } else {
            AttrsForm::two(alloc, attrs[0].try_clone()?, attr)
        }
    }

    /// Releases memory behind the last attribute: the spare capacity of a vector, and a block of
    /// two that holds none. Blocks of two or three with a free place, and shared lists, are left
    /// alone.
    pub(super) fn shrink_to_fit(&mut self)
        ensures { form_attrs self.new ≡ form_attrs self.old }
    {
        match self {
            AttrsForm::Own(list) => list.shrink_to_fit(),
            AttrsForm::Room(_) => *self = AttrsForm::None,
            _ => {}
        }
    }

    /// Returns the list without the attributes that `kept` doesn't keep. It allocates no memory.
    pub(super) fn retained(self, kept: Kept) -> AttrsForm
        ensures { form_attrs result ≡ filter (keeps kept.entry) (form_attrs self) }
    {
        match self {
            AttrsForm::None => AttrsForm::None,
            AttrsForm::One(list) => {
                if kept.keeps(&list[0]) {
                    AttrsForm::One(list)
                } else {
                    AttrsForm::None
                }
            }
            AttrsForm::Two(list) => part(list, kept),
            AttrsForm::Room(list) => AttrsForm::Room(list),
            AttrsForm::First(list) => {
                if kept.keeps(&list[0]) {
                    AttrsForm::First(list)
                } else {
                    AttrsForm::None
                }
            }
            AttrsForm::Second(list) => {
                if kept.keeps(&list[1]) {
                    AttrsForm::Second(list)
                } else {
                    AttrsForm::None
                }
            }
            AttrsForm::OneOf(place, list) => left_of_one(place, list, kept),
            AttrsForm::TwoOf(place, list) => left_of_two(place, list, kept),
            AttrsForm::Few(count, list) => left_of_few(count, list, kept),
            AttrsForm::Own(mut list) => {
                list.retain(|attr| kept.keeps(attr));
                AttrsForm::Own(list)
            }
        }
    }
}

/// Returns what a removal leaves of two attributes.
fn part(list: Rc<[Attr; 2]>, kept: Kept) -> AttrsForm
    ensures { form_attrs result ≡ filter (keeps kept.entry) (form_attrs (AttrsForm.Two list)) }
{
    let first = kept.keeps(&list[0]);
    let second = kept.keeps(&list[1]);
    if first && second {
        AttrsForm::Two(list)
    } else if first {
        AttrsForm::First(list)
    } else if second {
        AttrsForm::Second(list)
    } else {
        AttrsForm::None
    }
}

/// Returns what a removal leaves of the one attribute at index `place` of a shared list.
fn left_of_one(place: u32, list: Rc<Vec<Attr>>, kept: Kept) -> AttrsForm
    ensures { form_attrs result
        ≡ filter (keeps kept.entry) (form_attrs (AttrsForm.OneOf place list)) }
{
    if kept.keeps_any(stretch(list.as_slice(), place as usize, 1)) {
        AttrsForm::OneOf(place, list)
    } else {
        AttrsForm::None
    }
}

/// Returns what a removal leaves of the two attributes from index `place` on of a shared list.
fn left_of_two(place: u16, list: Rc<Vec<Attr>>, kept: Kept) -> AttrsForm
    ensures { form_attrs result
        ≡ filter (keeps kept.entry) (form_attrs (AttrsForm.TwoOf place list)) }
{
    let first = kept.keeps_any(stretch(list.as_slice(), place as usize, 1));
    let second = kept.keeps_any(stretch(list.as_slice(), place as usize + 1, 1));
    if first {
        if second {
            AttrsForm::TwoOf(place, list)
        } else {
            AttrsForm::OneOf(place as u32, list)
        }
    } else if second {
        AttrsForm::OneOf(place as u32 + 1, list)
    } else {
        AttrsForm::None
    }
}

/// Returns what a removal leaves of the first `count` attributes of a block of three.
fn left_of_few(count: u32, mut list: Three, kept: Kept) -> AttrsForm
    ensures { form_attrs result
        ≡ filter (keeps kept.entry) (form_attrs (AttrsForm.Few count list)) }
{
    let left = keep_in_front(&mut list.items, count as usize, kept);
    if left == 0 {
        AttrsForm::None
    } else {
        AttrsForm::Few(left as u32, list)
    }
}

/// Moves the kept ones of the first `count` attributes to the front, in order, and returns how many
/// they are.
fn keep_in_front(list: &mut [Attr; 3], count: usize, kept: Kept) -> usize
    ensures front { take result list.new ≡ filter (keeps kept.entry) (take count list.old) }
    ensures fewer { result ≤ count }
{
    let mut left = 0;
    for place in 0..count.min(list.len()) {
        if kept.keeps(&list[place]) {
            list.swap(left, place);
            left += 1;
        }
    }
    left
}

/// Returns the `count` attributes from index `from` on, or fewer when the slice ends before.
#[inline(always)]
fn stretch(attrs: &[Attr], from: usize, count: usize) -> &[Attr]
    ensures { result.now ≡ take count (drop from attrs.now) }
{
    if count <= attrs.len() && from <= attrs.len() - count {
        return &attrs[from..from + count];
    }
    last_stretch(attrs, from, count)
}

/// Returns the attributes from index `from` on, for a slice that ends before `from + count`. It is
/// a function of its own so that `stretch` stays small.
fn last_stretch(attrs: &[Attr], from: usize, count: usize) -> &[Attr]
    requires { length attrs.now < from + count }
    ensures { result.now ≡ take count (drop from attrs.now) }
{
    if from < attrs.len() {
        &attrs[from..]
    } else {
        &[]
    }
}

/// Puts the attribute at index `place` of a block that nothing else shares, and returns `None`.
/// When the block is shared, it returns the attribute and changes nothing.
#[inline(always)]
fn put(list: &mut Rc<[Attr; 2]>, place: usize, attr: Attr) -> Option<Attr>
    requires { place < 2 }
    ensures put { result ≡ None
        → rc_value list.new ≡ slice_set (rc_value list.old) place attr }
    ensures back { IfSome result (λ left. left ≡ attr) }
    ensures same { IfSome result (λ _. rc_value list.new ≡ rc_value list.old) }
    ensures pair { result ≡ None → length (rc_value list.old) ≡ 2 }
{
    match Rc::get_mut(list) {
        Some(pair) => {
            pair[place] = attr;
            None
        }
        None => Some(attr),
    }
}

/// Returns the attribute that fills a free place. It allocates no memory.
fn empty(alloc: Global) -> Attr {
    Attr {
        name: QualName::plain(LocalName::empty()),
        value: Text::from(String::new(alloc)),
    }
}

/// Returns a vector of copies of the attributes, with room for `additional` more.
fn copied(alloc: Global, attrs: &[Attr], additional: usize) -> Result<Vec<Attr>, OutOfMemory>
    ensures { IfOk result (λ made. made.items ≡ attrs.now) }
{
    let mut made = Vec::with_capacity(alloc, attrs.len().saturating_add(additional))?;
    for attr in attrs {
        push_attr(&mut made, attr)?;
    }
    Ok(made)
}

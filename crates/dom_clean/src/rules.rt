//! The rules of a policy.

ghost use Rattle.std.specs.Prelude.{◌≡◌, ◌++◌, ◌∷◌, [], OnOk, Some, None, true};
ghost use Rattle.dom_clean.specs.Policies.{policy_of};
ghost use Rattle.std.specs.Option.{option_map, option_map_or};
ghost use Rattle.dom_clean.specs.Policy.{no_rules, own_attribute, without, without_own};
ghost use Rattle.dom_clean.specs.Policy.Relative.{kept, dropped, resolved};

use crate::lists::{Lists, OwnAttribute, Relative, push_name, push_own, remove_name, remove_own};
use dom_nodes::fault::OutOfMemory;
use std::alloc::Global;
use std::marker::Model;
use url::Url;

/// The rules of a policy: what is allowed, and what becomes of the rest. A contract sees them as
/// lists. The calls that return a `Result` fail only if memory is refused.
#[derive(Drop)]
pub struct Rules {
    lists: Lists,
}

impl Model for Rules {
    ghost use Rattle.dom_clean.specs.Policies.{policy_of};
    ghost use Rattle.dom_clean.specs.Policy.{Policy};

    ghost Value = { Policy };

    ghost view = { λ rules. policy_of rules.lists };
}

impl Rules {
    /// Returns rules by which only texts stay: no element is allowed, none is dropped, and up to
    /// 128 elements may be nested.
    pub fn new(alloc: Global) -> Rules
        ensures { result ≡ no_rules }
    {
        Rules {
            lists: Lists {
                elements: Vec::new(alloc),
                dropped: Vec::new(alloc),
                attributes: Vec::new(alloc),
                own_attributes: Vec::new(alloc),
                data_attributes: false,
                schemes: Vec::new(alloc),
                relative: Relative::Dropped,
                rel: None,
                id_prefix: String::new(alloc),
                classes: None,
                depth: 128,
            },
        }
    }

    /// Returns the lists.
    pub(crate) fn into_lists(self) -> Lists
        ensures { policy_of result ≡ self }
    {
        let Rules { lists } = self;
        lists
    }

    fn alloc(&self) -> Global {
        *self.lists.elements.allocator()
    }

    /// Lets elements of that name stay where they may be.
    pub fn allow_element(&mut self, name: &str) -> Result<(), OutOfMemory>
        ensures { OnOk result (self.new
            ≡ record self.old { elements = self.old.elements ++ name.now ∷ [] }) }
    {
        push_name(self.alloc(), &mut self.lists.elements, name)
    }

    /// Has elements of that name unwrapped again: it takes back what `allow_element` has allowed.
    pub fn disallow_element(&mut self, name: &str)
        ensures { self.new ≡ record self.old { elements = without name.now self.old.elements } }
    {
        remove_name(&mut self.lists.elements, name);
    }

    /// Has elements of that name removed with everything in them, even if they are allowed, too.
    pub fn drop_element(&mut self, name: &str) -> Result<(), OutOfMemory>
        ensures { OnOk result (self.new
            ≡ record self.old { dropped = self.old.dropped ++ name.now ∷ [] }) }
    {
        push_name(self.alloc(), &mut self.lists.dropped, name)
    }

    /// Takes back what `drop_element` has said of elements of that name.
    pub fn undrop_element(&mut self, name: &str)
        ensures { self.new ≡ record self.old { dropped = without name.now self.old.dropped } }
    {
        remove_name(&mut self.lists.dropped, name);
    }

    /// Lets every element have that attribute.
    pub fn allow_attribute(&mut self, name: &str) -> Result<(), OutOfMemory>
        ensures { OnOk result (self.new
            ≡ record self.old { attributes = self.old.attributes ++ name.now ∷ [] }) }
    {
        push_name(self.alloc(), &mut self.lists.attributes, name)
    }

    /// Takes back what `allow_attribute` has allowed. Elements that have the attribute by
    /// `allow_attribute_of` or `allow_value` keep it.
    pub fn disallow_attribute(&mut self, name: &str)
        ensures { self.new ≡ record self.old { attributes = without name.now self.old.attributes } }
    {
        remove_name(&mut self.lists.attributes, name);
    }

    /// Lets elements of that name have that attribute.
    pub fn allow_attribute_of(&mut self, element: &str, name: &str) -> Result<(), OutOfMemory>
        ensures { OnOk result (self.new ≡ record self.old {
          own_attributes
              = self.old.own_attributes ++ own_attribute element.now name.now None ∷ [];
        }) }
    {
        let alloc = self.alloc();
        push_own(alloc, &mut self.lists.own_attributes, (element, name), None)
    }

    /// Lets elements of that name have that attribute with that value. If the attribute itself is
    /// allowed, too, it may have any value.
    pub fn allow_value(&mut self, element: &str, name: &str, value: &str) -> Result<(), OutOfMemory>
        ensures { OnOk result (self.new ≡ record self.old {
          own_attributes
              = self.old.own_attributes
              ++ own_attribute element.now name.now (Some value.now) ∷ [];
        }) }
    {
        let alloc = self.alloc();
        push_own(
            alloc,
            &mut self.lists.own_attributes,
            (element, name),
            Some(value),
        )
    }

    /// Takes back what `allow_attribute_of` and `allow_value` have allowed for that attribute of
    /// elements of that name, whatever the values are.
    pub fn disallow_attribute_of(&mut self, element: &str, name: &str)
        ensures { self.new ≡ record self.old {
          own_attributes = without_own element.now name.now self.old.own_attributes;
        } }
    {
        remove_own(&mut self.lists.own_attributes, element, name);
    }

    /// Lets addresses have that scheme, which is given in lower case.
    pub fn allow_scheme(&mut self, scheme: &str) -> Result<(), OutOfMemory>
        ensures { OnOk result (self.new
            ≡ record self.old { schemes = self.old.schemes ++ scheme.now ∷ [] }) }
    {
        push_name(self.alloc(), &mut self.lists.schemes, scheme)
    }

    /// Has addresses with that scheme removed again.
    pub fn disallow_scheme(&mut self, scheme: &str)
        ensures { self.new ≡ record self.old { schemes = without scheme.now self.old.schemes } }
    {
        remove_name(&mut self.lists.schemes, scheme);
    }

    /// Sets whether every element may have attributes whose names begin with `data-`.
    pub fn set_data_attributes(&mut self, are_allowed: bool)
        ensures { self.new ≡ record self.old { data_attributes = are_allowed } }
    {
        self.lists.data_attributes = are_allowed;
    }

    /// Lets addresses without a scheme stay as they are.
    pub fn keep_relative(&mut self)
        ensures { self.new ≡ record self.old { relative = kept } }
    {
        self.lists.relative = Relative::Kept;
    }

    /// Has addresses without a scheme removed.
    pub fn drop_relative(&mut self)
        ensures { self.new ≡ record self.old { relative = dropped } }
    {
        self.lists.relative = Relative::Dropped;
    }

    /// Has addresses without a scheme resolved against that base.
    pub fn resolve_relative(&mut self, base: Url)
        ensures { self.new ≡ record self.old { relative = resolved base } }
    {
        self.lists.relative = Relative::Resolved(base);
    }

    /// Sets the `rel` that each `a` and `area` gets, such as `noopener noreferrer`.
    pub fn set_rel(&mut self, rel: &str) -> Result<(), OutOfMemory>
        ensures { OnOk result (self.new ≡ record self.old { rel = Some rel.now }) }
    {
        self.lists.rel = Some(String::from_str(self.alloc(), rel)?);
        Ok(())
    }

    /// Has links get no `rel`.
    pub fn clear_rel(&mut self)
        ensures { self.new ≡ record self.old { rel = None } }
    {
        self.lists.rel = None;
    }

    /// Sets the text that each `id` gets in front, unless it begins with it.
    pub fn set_id_prefix(&mut self, prefix: &str) -> Result<(), OutOfMemory>
        ensures { OnOk result (self.new ≡ record self.old { id_prefix = prefix.now }) }
    {
        self.lists.id_prefix = String::from_str(self.alloc(), prefix)?;
        Ok(())
    }

    /// Lets the class stay. As soon as one class is allowed, all others are removed.
    pub fn allow_class(&mut self, class: &str) -> Result<(), OutOfMemory>
        ensures { OnOk result (self.new ≡ record self.old {
          classes = Some (option_map_or (λ classes. classes) self.old.classes [] ++ class.now ∷ []);
        }) }
    {
        let alloc = self.alloc();
        if self.lists.classes.is_none() {
            self.lists.classes = Some(Vec::new(alloc));
        }
        match &mut self.lists.classes {
            Some(classes) => push_name(alloc, classes, class),
            None => Ok(()),
        }
    }

    /// Has the class removed again that `allow_class` has allowed. Where it was the last one, no
    /// class stays. Where no class has been allowed, all of them still stay.
    pub fn disallow_class(&mut self, class: &str)
        ensures { self.new
            ≡ record self.old { classes = option_map (without class.now) self.old.classes } }
    {
        if let Some(classes) = &mut self.lists.classes {
            remove_name(classes, class);
        }
    }

    /// Sets how many of the elements that stay may be nested; a policy allows at most 256. Deeper
    /// elements are unwrapped.
    pub fn set_depth(&mut self, depth: usize)
        ensures { self.new ≡ record self.old { depth = depth } }
    {
        self.lists.depth = depth;
    }
}

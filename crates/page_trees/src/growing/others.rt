//! Numbers for element names that are not in `Name`.

ghost use Rattle.std.specs.Prelude.{◌≡◌, [], IfOk};
ghost use Rattle.page_trees.specs.NameNumbers.{IsNumberFor, number_in, numbers_of};
ghost use Rattle.page_trees.specs.declared.name.Name.TheVariants.{Other};

use crate::fault::PageFault;
use std::alloc::Global;
use std::collections::BTreeMap;

/// The names outside `Name` that elements of the page have, with a number for each.
#[derive(Drop)]
pub struct OtherNames {
    numbers: BTreeMap<String, u32>,
}

impl OtherNames {
    pub fn new(alloc: Global) -> OtherNames
        ensures { numbers_of result.numbers.entries ≡ [] }
    {
        OtherNames {
            numbers: BTreeMap::new(alloc),
        }
    }

    /// Returns the number of a name, if an element had it.
    pub fn get(&self, name: &str) -> Option<u32>
        ensures { result ≡ number_in (numbers_of self.now.numbers.entries) name.now }
    {
        self.numbers.get(name).copied()
    }

    /// Returns the number of a name; a new name gets the next number. Fails with `Memory`, or with
    /// `TooManyNodes` if there are too many names.
    pub fn number_of(&mut self, alloc: Global, name: &str) -> Result<u32, PageFault>
        ensures { let after = numbers_of self.new.numbers.entries in IfOk result (λ number.
            IsNumberFor Other name.now number (numbers_of self.old.numbers.entries) after) }
    {
        if let Some(number) = self.get(name) {
            return Ok(number);
        }
        let Ok(number) = u32::try_from(self.numbers.len()) else {
            return Err(PageFault::TooManyNodes);
        };
        let name = String::from_str(alloc, name)?;
        self.numbers.insert(name, number)?;
        Ok(number)
    }
}

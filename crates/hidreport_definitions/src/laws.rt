//! Laws of the definitions: what is computed is what the relations say.
ghost use Rattle.std.specs.Prelude.{◌↔◌, ℕ, List, [], ◌∷◌, ◌++◌, IsTrue};
ghost use Rattle.hidreport.specs.GlobalItem.TheVariants as global;
ghost use Rattle.hidreport.specs.ItemType.{ItemType};
ghost use Rattle.hidreport.specs.ItemType.TheVariants as item;
ghost use Rattle.hidreport.specs.OpenCollections.{is_open, IsOpen};
ghost use Rattle.hidreport.specs.Segments.{IsMatched};
ghost use Rattle.hidreport.specs.Visibility.{is_visible, IsVisible};

/// An item is visible at a place where it is before it and no Pop has closed the segment that it
/// stands in.
pub fn visibility_is_computed()
    ensures { (items : List ItemType) (j k : ℕ)
        → IsTrue (is_visible items j k) ↔ IsVisible items j k }
{}

/// Matched items that stand behind each other are matched, and so are a Push, matched items and a
/// Pop.
pub fn segments_join_and_nest()
    ensures joined { (items others : List ItemType) → IsMatched items → IsMatched others
        → IsMatched (items ++ others) }
    ensures nested { (items : List ItemType) → IsMatched items
        → IsMatched (item.Global global.Push ∷ (items ++ item.Global global.Pop ∷ [])) }
{}

/// A collection is open at a place where it was opened before it and isn't closed yet.
pub fn open_collections_are_computed()
    ensures { (items : List ItemType) (j k : ℕ) → IsTrue (is_open items j k) ↔ IsOpen items j k }
{}

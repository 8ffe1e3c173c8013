//! The laws of written bytes and of short items: what they ask of an item can be met.
ghost use Rattle.std.specs.Prelude.{◌≡◌, [], ◌∷◌, false, IsTrue};
ghost use Rattle.hidreport.specs.GlobalItem.TheVariants as global;
ghost use Rattle.hidreport.specs.ItemType.TheVariants as item;
ghost use Rattle.hidreport.specs.Kept.{is_kept};
ghost use Rattle.hidreport.specs.LocalItem.TheVariants as local;
ghost use Rattle.hidreport.specs.Spelling.{item_of, Spells};
ghost use Rattle.hidreport.specs.WithoutLong.{ItemisesShort};
ghost use Rattle.hidreport_definitions.specs.Cut.{page_and_pop};

/// Bytes that spell items: in one data byte, in four, and in none; long items with two data bytes
/// and with none.
pub fn bytes_spell_items()
    ensures one_byte { Spells (0x05 ∷ 0x01 ∷ []) (item.Global (global.UsagePage 1)) }
    ensures four_bytes { Spells (0x07 ∷ 1 ∷ 0 ∷ 2 ∷ 0 ∷ []) (item.Global (global.UsagePage 1)) }
    ensures none { Spells (0xa4 ∷ []) (item.Global global.Push) }
    ensures long { Spells (0xfe ∷ 2 ∷ 0xf0 ∷ 0xc0 ∷ 0xc0 ∷ []) item.Long }
    ensures long_without_data { Spells (0xfe ∷ 0 ∷ 0x7f ∷ []) item.Long }
{}

/// Bytes that are short items alone.
pub fn bytes_are_short_items()
    ensures { ItemisesShort item_of (0x05 ∷ 0x01 ∷ 0xb4 ∷ []) page_and_pop }
{}

/// Items that are kept, reserved ones, and long ones.
pub fn items_are_kept()
    ensures page { IsTrue (is_kept (item.Global (global.UsagePage 1))) }
    ensures push { IsTrue (is_kept (item.Global global.Push)) }
    ensures usage { IsTrue (is_kept (item.Local (local.Usage 1 0x30))) }
    ensures later_global { is_kept (item.Global global.Reserved) ≡ false }
    ensures later_local { is_kept (item.Local (local.Reserved 0xf8)) ≡ false }
    ensures long { is_kept item.Long ≡ false }
{}

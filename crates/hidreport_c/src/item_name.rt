//! The names of items, of kinds of collections and of flags.
ghost use Rattle.std.specs.Prelude.{◌≡◌, Ok, [], length, option_map, unwrap_or};
ghost use Rattle.hidreport_c.specs.Answer.{Lists, array_after, counted};
ghost use Rattle.hidreport_c.specs.ItemName.{flags_named, item_named, kind_named, words_for};
ghost use Rattle.hidreport_usages.specs.FlagWords.{flag_text};

use crate::answer::write_list;
use crate::name::write_text;
use crate::structs::HidreportAnswer;
use hidreport::hid::{CollectionItem, ItemType, MainItem, front_item};
use hidreport_usages::{FlagWords, collection_name, item_name};
use std::alloc::Global;

/// The standard's name of the item that these bytes begin with (Section 6.2.2), as text without a
/// zero at its end; empty where it can't be read. It takes no memory.
#[unsafe(no_mangle)]
pub extern "C" fn hidreport_item_name(item: &[u8], text: &mut [u8]) -> HidreportAnswer
    ensures answer { result ≡ counted (length (item_named item.now)) }
    ensures written { text.new ≡ array_after (item_named item.now) text.old }
{
    match front_item(item) {
        Ok(front) => write_list(item_name(&front.item).as_bytes(), text),
        Err(_) => write_list(&[], text),
    }
}

/// The flags of the Input, Output or Feature that these bytes begin with (Section 6.2.2.5), as
/// words; empty where another item stands there, or none that can be read. Where memory is refused
/// the answer is 4.
#[unsafe(no_mangle)]
pub extern "C" fn hidreport_flag_words(
    alloc: Global,
    item: &[u8],
    text: &mut [u8],
) -> HidreportAnswer
    ensures { Lists (Ok (flags_named item.now)) text.old text.new result }
{
    match front_item(item) {
        Ok(front) => match flag_words(&front.item) {
            Some(words) => write_text(format!(in alloc; "{words}"), text),
            None => HidreportAnswer::counted(0),
        },
        Err(_) => HidreportAnswer::counted(0),
    }
}

/// The flags of an Input, Output or Feature.
fn flag_words(item: &ItemType) -> Option<FlagWords>
    ensures { words_for item.now ≡ unwrap_or (option_map flag_text result) [] }
{
    match item {
        ItemType::Main(MainItem::Input(item)) => Some(FlagWords::from(item)),
        ItemType::Main(MainItem::Output(item)) => Some(FlagWords::from(item)),
        ItemType::Main(MainItem::Feature(item)) => Some(FlagWords::from(item)),
        _ => None,
    }
}

/// The standard's name of a kind of collection (Section 6.2.2.6), likewise; empty for a number that
/// no kind has. It takes no memory.
#[unsafe(no_mangle)]
pub extern "C" fn hidreport_collection_name(kind: u32, text: &mut [u8]) -> HidreportAnswer
    ensures answer { result ≡ counted (length (kind_named kind)) }
    ensures written { text.new ≡ array_after (kind_named kind) text.old }
{
    match u8::try_from(kind) {
        Ok(number) => write_list(
            collection_name(&CollectionItem::from(number)).as_bytes(),
            text,
        ),
        Err(_) => write_list(&[], text),
    }
}

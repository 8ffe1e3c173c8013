//! Local items with their usage pages (Section 6.2.2.8).
use hidreport_items::LocalItem;
use hidreport_types::UsagePage;

/// A local item with the usage page in force where it stands (Section 6.2.2.8).
#[derive(Clone, Copy)]
pub(crate) struct PagedLocal {
    pub(crate) page: Option<UsagePage>,
    pub(crate) item: LocalItem,
}

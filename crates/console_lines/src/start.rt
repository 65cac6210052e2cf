ghost use Rattle.std.specs.Prelude.{◌≡◌, ◌≤◌, map};
ghost use Rattle.console_lines.specs.Requests.{store_word, fresh_of, fresh_words, fresh_written};

use crate::numbers::number_up_to;

/// Which store of files.
#[derive(Clone, Copy)]
pub enum Store {
    Table,
    Image,
}

/// A fresh start: the store, and how much is lent to pool, log and book.
#[derive(Clone, Copy)]
pub struct Start {
    pub store: Store,
    pub bytes: usize,
    pub places: usize,
    pub entries: usize,
    pub records: usize,
    ghost bytes_fit: { bytes ≤ 65536 },
    ghost places_fit: { places ≤ 1024 },
    ghost entries_fit: { entries ≤ 2048 },
    ghost records_fit: { records ≤ 256 },
}

fn store_of(word: &[u8]) -> Option<Store>
    ensures { result ≡ store_word word.now }
{
    match word {
        b"table" => Some(Store::Table),
        b"image" => Some(Store::Image),
        _ => None,
    }
}

impl Start {
    ghost use Rattle.std.specs.Option.{option_map};
    ghost use Rattle.console_lines.specs.Meanings.{start_asks};

    /// The start before any other.
    pub fn first() -> Start
        ensures { start_asks result ≡ fresh_of Store.Table 65536 1024 1088 256 }
    {
        Start {
            store: Store::Table,
            bytes: 65536,
            places: 1024,
            entries: 1088,
            records: 256,
        }
    }

    /// The start that five words tell.
    fn of_five(
        store: &[u8],
        bytes: &[u8],
        places: &[u8],
        entries: &[u8],
        records: &[u8],
    ) -> Option<Start>
        ensures { option_map start_asks result ≡ fresh_words store.now bytes.now places.now entries.now records.now }
    {
        let store = store_of(store)?;
        let bytes = number_up_to(bytes, 65536)?;
        let places = number_up_to(places, 1024)?;
        let entries = number_up_to(entries, 2048)?;
        let records = number_up_to(records, 256)?;
        Some(Start {
            store,
            bytes: bytes as usize,
            places: places as usize,
            entries: entries as usize,
            records: records as usize,
        })
    }

    /// The start that words tell.
    pub fn of_words(words: &[&[u8]]) -> Option<Start>
        ensures { option_map start_asks result ≡ fresh_written (map (λ x. x.now) words.now) }
    {
        match words {
            [store, bytes, places, entries, records] => {
                Start::of_five(store, bytes, places, entries, records)
            }
            _ => None,
        }
    }
}

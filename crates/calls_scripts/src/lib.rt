// The scripts that are to play together: each file is read into its own table and asked its own questions, 15 of its store included. No
// store is touched.
#![tactic(auto)]

ghost use Rattle.std.specs.Prelude.{◌≡◌, List, ℕ, ◌<◌, length};
ghost use Rattle.rules.specs.Calls.{Priced};
ghost use Rattle.calls_lists.specs.Parts.{lent_of, ExtentOf};
ghost use Rattle.calls_scripts.specs.Held.{table_lengths, Lengths, PlacesOf, MayEnterAt, MayEnter};
ghost use Rattle.calls_scripts.specs.Held.{entered_by, EnteredAs, EnteredAt, HeldScriptsAs};

use calls_lists::{Extent, part};
use rules::Refusal;

// Where a script's file, table, store and picks stand in what is lent.
#[derive(Clone, Copy, Debug, PartialEq, Eq)]
pub struct Places {
    pub file: Extent,
    pub table: Extent,
    pub store: Extent,
    pub picks: Extent,
}

// A script that has been read: its places, and the number of its rows in the table.
#[derive(Clone, Copy, Debug, PartialEq, Eq)]
pub struct Held {
    pub places: Places,
    pub count: usize,
}

// No place.
const NOWHERE: Extent = Extent { from: 0, to: 0 };

// What stands past the last script.
const NOBODY: Held = Held {
    places: Places {
        file: NOWHERE,
        table: NOWHERE,
        store: NOWHERE,
        picks: NOWHERE,
    },
    count: 0,
};

// The table of script k: 1,024 numbers after those of the scripts before it.
fn table_of(k: usize) -> Extent
    requires { k < 8 }
    ensures { ExtentOf table_lengths k result }
{
    let from = 1_024 * k;
    Extent {
        from,
        to: from + 1_024,
    }
}

// The places of script k.
fn places_of(
    k: usize,
    file_lengths: &[usize],
    store_lengths: &[usize],
    pick_lengths: &[usize],
) -> Places
    requires { (k < length file_lengths.now) × Lengths file_lengths.now store_lengths.now pick_lengths.now }
    ensures { PlacesOf file_lengths.now store_lengths.now pick_lengths.now k result }
{
    let file = part(file_lengths, k);
    let table = table_of(k);
    let store = part(store_lengths, k);
    let picks = part(pick_lengths, k);
    Places {
        file,
        table,
        store,
        picks,
    }
}

// The questions 2 to 13, 17 and 19 of a file, and 15 of its store: the number of its rows, which are put into the table.
fn enter(file: &[u8], prices: &[u32], store: &[i32], table: &mut [u32]) -> Result<usize, Refusal>
    requires { Priced prices.now × (length table.old ≡ 1_024) }
    ensures { EnteredAs prices.now file.now store.now table.new (entered_by result) }
{
    let mut ranges = [[0i32; 2]; 16];
    let script = reader::load(file, &mut ranges, table)?;
    calls::ask_script(file, &table[..], script, ranges, prices, store)?;
    Ok(script.count)
}

// The same by a script's places in what is lent.
fn enter_at(
    files: &[u8],
    stores: &[i32],
    tables: &mut [u32],
    places: Places,
    prices: &[u32],
) -> Result<usize, Refusal>
    requires { MayEnterAt prices.now files.now stores.now tables.old places }
    ensures { EnteredAt prices.now files.now stores.now tables.old
        tables.new places (entered_by result) }
{
    let f = places.file;
    let file_from = f.from;
    let file_to = f.to;
    let s = places.store;
    let store_from = s.from;
    let store_to = s.to;
    let t = places.table;
    let table_from = t.from;
    let table_to = t.to;
    enter(
        &files[file_from..file_to],
        prices,
        &stores[store_from..store_to],
        &mut tables[table_from..table_to],
    )
}

// All scripts and how many they are, each accepted with its store.
#[derive(Clone, Copy, Debug, PartialEq, Eq)]
pub struct HeldScripts {
    pub number: usize,
    pub each: [Held; 8],
}

// The first no, and which script has it, from 1; 0 where it is of the call.
#[derive(Clone, Copy, Debug, PartialEq, Eq)]
pub struct ScriptRefusal {
    pub refusal: Refusal,
    pub script: usize,
}

// A refusal of the call.
impl From<Refusal> for ScriptRefusal {
    ghost from_gives = { λ refusal e. e ≡ record { refusal = refusal; script = 0 } };

    fn from(refusal: Refusal) -> Self {
        ScriptRefusal { refusal, script: 0 }
    }
}

// The scripts one after the other, until one is refused.
pub fn enter_all(
    files: &[u8],
    file_lengths: &[usize],
    stores: &[i32],
    store_lengths: &[usize],
    pick_lengths: &[usize],
    prices: &[u32],
    tables: &mut [u32],
) -> Result<HeldScripts, ScriptRefusal>
    requires { MayEnter prices.now files.now file_lengths.now stores.now store_lengths.now
        pick_lengths.now tables.old }
    ensures { (picks : List ℕ) → HeldScriptsAs prices.now (lent_of files.now
        file_lengths.now stores.now store_lengths.now picks
        pick_lengths.now) tables.new result }
{
    let mut each = [NOBODY; 8];
    let number = file_lengths.len();
    for k in 0..number {
        let places = places_of(k, file_lengths, store_lengths, pick_lengths);
        match enter_at(files, stores, tables, places, prices) {
            Ok(count) => {
                each[k] = Held { places, count };
            }
            Err(refusal) => {
                return Err(ScriptRefusal {
                    refusal,
                    script: k + 1,
                });
            }
        }
    }
    Ok(HeldScripts { number, each })
}

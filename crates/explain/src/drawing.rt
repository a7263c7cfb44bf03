// A run, drawn: from which values of the store, and what is printed of it.
use crate::explain_file;
use crate::picture::draw_cues;
use crate::refusal::print_refused;
use host::Host;
use loader::SCRATCH;
use program_parts::{STORE, Store, Terms, print_outcome};
use reader::load;
use rules::Refusal;

// What is to be shown of a file: its figures, or a run by picks from a store; without one each value lies inside the range of the file.
#[derive(Clone, Copy)]
pub enum Shown<'a> {
    Figures,
    Run(&'a [u8], Option<Store>),
}

// A value inside a range: 0, or else its low end.
fn value_in(range: [i32; 2]) -> i32 {
    if range[0] <= 0 && 0 <= range[1] {
        0
    } else {
        range[0]
    }
}

// A value inside the range of each variable.
fn values_in(ranges: [[i32; 2]; 16]) -> [i32; STORE] {
    let mut values = [0i32; STORE];
    for i in 0..16 {
        values[i] = value_in(ranges[i]);
    }
    values
}

// Explains a refusal: of the store, by 15, or of the file.
fn print_no_run(host: &impl Host, file: &[u8], prices: &[u32], refusal: Refusal) {
    if refusal.number == 15 {
        print_refused(host, file, refusal);
    } else {
        explain_file(host, file, prices);
    }
}

// Runs a file from a store with all the ticks that it takes, and prints what the run comes to and its picture; or explains its refusal.
fn draw_run(host: &impl Host, file: &[u8], prices: &[u32], picks: &[u8], store: Store) {
    let mut after = store;
    let values = &mut after.values[..store.count];
    let mut scratch = [0u32; SCRATCH];
    match loader::run(file, prices, &mut scratch, values, picks, u64::MAX) {
        Ok(o) => {
            print_outcome(host, o, values);
            let terms = Terms {
                file,
                prices,
                allowed: u64::MAX,
            };
            draw_cues(host, terms, picks, store, o.ticks);
        }
        Err(refusal) => print_no_run(host, file, prices, refusal),
    }
}

// Values inside the ranges of a file.
fn store_inside(file: &[u8]) -> Store {
    let mut ranges = [[0i32; 2]; 16];
    let mut table = [0u32; 1024];
    let vars = match load(file, &mut ranges, &mut table) {
        Ok(script) => script.vars,
        Err(_) => 0,
    };
    Store::new(values_in(ranges), vars)
}

// Draws the run from a store, or else from values inside the ranges of the file.
pub fn draw_file(
    host: &impl Host,
    file: &[u8],
    prices: &[u32],
    picks: &[u8],
    given: Option<Store>,
) {
    let store = match given {
        Some(store) => store,
        None => store_inside(file),
    };
    draw_run(host, file, prices, picks, store);
}

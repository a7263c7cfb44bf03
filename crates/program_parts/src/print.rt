// What the programs print, on standard output: texts, refusals and what a run answers.
use calls::Outcome;
use host::Host;
use rules::Refusal;

// Prints a text, or says that it cannot.
pub fn print_text(host: &impl Host, text: &[u8]) {
    let _ = host.write(text);
}

pub fn print_refusal(host: &impl Host, refusal: Refusal) {
    let number = refusal.number;
    let place = refusal.place;
    println!(host; "refused={number} {place}");
}

// What a run comes to: its ending, ticks, bytes used, store and counts. No script has more loops or more values.
pub fn print_outcome(host: &impl Host, o: Outcome, store: &[i32]) {
    if o.loops <= 16 && store.len() <= 17 {
        let mut text = [0u8; answer_text::runs::TEXT];
        let n = answer_text::runs::put_outcome(Ok(o), store, &mut text);
        print_text(host, &text[..n]);
    }
}

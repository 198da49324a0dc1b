// Sources that are generated from a seed.
ghost use Rattle.std.specs.Prelude.{◌≡◌, ◌<◌, ◌≤◌, ◌^◌, ◌++◌, IfOk, OnOk};
ghost use Rattle.beldi_generator.specs.Generated.{bank, drawn, fate_text, fifth, from_text, front_text, generated, next_seed, request_of, request_text, to_text, transfer_text};

use beldi_value::TextBuf;
use std::alloc::AllocError;

// Appends the deployment.
fn write_bank(out: &mut TextBuf) -> Result<(), AllocError>
    ensures { OnOk result (out.new ≡ out.old ++ bank) }
{
    out.push_text("life 1000000;\n")?;
    out.push_text(
        "function bank(x) { table acct; transaction { read a = acct[x.from]; if a == null { set a = 100; }\n",
    )?;
    out.push_text("  read b = acct[x.to]; if b == null { set b = 100; }\n")?;
    out.push_text(
        "  write acct[x.from] = a - x.n; write acct[x.to] = b + x.n; } aborted { return false; } return true; }\n",
    )?;
    out.push_text("script\n")
}

// The seed after this one; a draw is what stands above its lowest 16 bits.
fn next_seed(seed: u64) -> u64
    requires { seed < 2 ^ 32 }
    ensures next { result ≡ next_seed seed }
    ensures small { result < 2 ^ 32 }
{
    (seed * 1_103_515_245 + 12_345) % 2_147_483_648
}

fn drawn(seed: u64) -> u64
    ensures { result ≡ drawn seed }
{
    seed / 65_536
}

// Appends a request for a transfer.
fn write_transfer(
    ticket: u64,
    from: u64,
    to: u64,
    amount: u64,
    out: &mut TextBuf,
) -> Result<(), AllocError>
    ensures { OnOk result (out.new ≡ out.old ++ transfer_text ticket from to amount) }
{
    write_front(ticket, out)?;
    write_from(from, out)?;
    write_to(amount, to, out)
}

fn write_front(ticket: u64, out: &mut TextBuf) -> Result<(), AllocError>
    ensures { OnOk result (out.new ≡ out.old ++ front_text ticket) }
{
    out.push_text("ticket\nrequest ")?;
    out.push_number(ticket)?;
    out.push_text(" bank ")
}

fn write_from(from: u64, out: &mut TextBuf) -> Result<(), AllocError>
    ensures { OnOk result (out.new ≡ out.old ++ from_text from) }
{
    out.push_text("{\"from\":\"a")?;
    out.push_number(from)?;
    out.push_text("\",\"n\":")
}

fn write_to(amount: u64, to: u64, out: &mut TextBuf) -> Result<(), AllocError>
    ensures { OnOk result (out.new ≡ out.old ++ to_text amount to) }
{
    out.push_number(amount)?;
    out.push_text(",\"to\":\"a")?;
    out.push_number(to)?;
    out.push_text("\"}\n")
}

// Appends what comes of a run: it crashes, or is given turns.
fn write_fate(run: u64, fate: u64, out: &mut TextBuf) -> Result<(), AllocError>
    ensures { OnOk result (out.new ≡ out.old ++ fate_text run fate) }
{
    if fate % 8 == 0 {
        out.push_text("crash ")?;
        out.push_number(run)?;
    } else {
        out.push_text("turn ")?;
        out.push_number(run)?;
        out.push_text(" ")?;
        out.push_number(1 + fate % 20)?;
    }
    out.push_text("\n")
}

// Appends the lines of one request, by its draws.
fn write_drawn(
    ticket: u64,
    account: u64,
    other: u64,
    amount: u64,
    run: u64,
    fate: u64,
    out: &mut TextBuf,
) -> Result<(), AllocError>
    requires { (1 ≤ ticket) × (ticket < 2 ^ 63) }
    ensures { OnOk result (out.new ≡ out.old ++ request_text ticket account other amount run fate) }
{
    let from = account % 8;
    let to = (from + 1 + other % 7) % 8;
    write_transfer(ticket, from, to, amount % 100, out)?;
    write_fate(1 + run % ticket, fate, out)
}

// Appends the lines of one request, and answers the seed after its five draws.
fn write_request(ticket: u64, seed: u64, out: &mut TextBuf) -> Result<u64, AllocError>
    requires seed { seed < 2 ^ 32 }
    requires ticket { (1 ≤ ticket) × (ticket < 2 ^ 63) }
    ensures text { OnOk result (out.new ≡ out.old ++ request_of ticket seed) }
    ensures next { IfOk result (λ next. next ≡ fifth seed) }
    ensures small { IfOk result (λ next. next < 2 ^ 32) }
{
    let first = next_seed(seed);
    let second = next_seed(first);
    let third = next_seed(second);
    let fourth = next_seed(third);
    let fifth = next_seed(fourth);
    write_drawn(
        ticket,
        drawn(first),
        drawn(second),
        drawn(third),
        drawn(fourth),
        drawn(fifth),
        out,
    )?;
    Ok(fifth)
}

/// Appends a source with so many requests, drawn from the seed. Out of memory, a front of it is there.
pub fn generate(seed: u32, requests: u32, out: &mut TextBuf) -> Result<(), AllocError>
    ensures { OnOk result (out.new ≡ out.old ++ generated seed requests) }
{
    write_bank(out)?;
    let mut seed = u64::from(seed);
    for request in 0..u64::from(requests) {
        seed = write_request(request + 1, seed, out)?;
    }
    out.push_text("settle 4000000000\n")
}

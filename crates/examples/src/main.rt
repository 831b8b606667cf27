//! Worked examples: real vouchers of the changeover, taken through the engine and printed step by step.
#![tactic(auto)]

mod heirs;
mod invoice;
mod job;
mod ledgers;
mod limits;
mod reckoned;
mod wording;

fn run(rt: &HostRuntime) -> anyhow::Result<()> {
    invoice::show(rt)?;
    heirs::show(rt)?;
    ledgers::show(rt)?;
    job::show(rt)?;
    limits::show(rt)?;
    reckoned::show_refused(rt)?;
    reckoned::show(rt)?;
    Ok(())
}

fn main(rt: HostRuntime) -> anyhow::Result<()> {
    run(&rt)
}

// Runs many cases against the library: each line of the standard input is a call, its name and its numbers, and a line is written for
// each with what the call answered. The expected answers come from an independent program; tools/vectors.py makes the two files.
#![tactic(auto)]

mod faces;
mod light;
mod plane_cases;
mod strikes;
mod tables;
mod words;

use anyhow::{Context, bail};
use std::alloc::Global;
use std::io::{BufRead, BufReader};
use words::Numbers;

// What the call in a line answers. A match is the plainest table of calls: a list of function pointers by name would need a search.
fn answer(heap: Global, line: &str) -> anyhow::Result<String> {
    let mut words = line.split_whitespace();
    let name = words.next().context("an empty line")?;
    let mut numbers = Numbers::parse(heap, words)?;
    match name {
        "turn" => light::turn(heap, &mut numbers),
        "reach" => light::reach(heap, &mut numbers),
        "strike" => strikes::strike(heap, &mut numbers),
        "floor" => faces::floor(heap, &mut numbers),
        "wall" => faces::wall(heap, &mut numbers),
        "match" => tables::sides(heap, &mut numbers),
        "many" => tables::many(heap, &mut numbers),
        "load" => tables::load(heap, &mut numbers),
        "pair" => tables::pair(heap, &mut numbers),
        "sizes" => tables::sizes(heap, &mut numbers),
        "line" => plane_cases::linear(heap, &mut numbers),
        "pack" => plane_cases::packed(heap, &mut numbers),
        "check" => plane_cases::check(heap, &mut numbers),
        _ => bail!("an unknown call"),
    }
}

fn run(rt: &HostRuntime) -> anyhow::Result<()> {
    let heap = rt.alloc();
    for line in BufReader::new(heap, rt.stdin())?.lines(heap) {
        rt.println(answer(heap, line?.as_str())?)?;
    }
    Ok(())
}

fn main(rt: HostRuntime) -> anyhow::Result<()> {
    run(&rt)
}

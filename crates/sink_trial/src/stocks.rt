// A stock of bytes near its limit.
use crate::show;
use sink::Stock;
use std::io;

fn add(rt: &HostRuntime, label: &str, stock: &mut Stock, more: &[u8]) -> io::Result<()> {
    let fits = stock.append(more).is_ok();
    println!(rt; "{label}: {fits}, {}", stock.len())
}

pub(crate) fn run(rt: &HostRuntime) -> io::Result<()> {
    println!(rt; "A stock holds 4,096 bytes.")?;
    let mut stock = Stock::new();
    add(rt, "4,095 bytes", &mut stock, &[9; 4095])?;
    add(rt, "4,097 bytes", &mut stock, &[8, 8])?;
    add(rt, "4,096 bytes", &mut stock, &[7])?;
    add(rt, "4,097 bytes", &mut stock, &[6])?;
    add(rt, "no byte more", &mut stock, &[])?;
    let mut short = [0xeeu8; 4095];
    let answer = stock.pour(&mut short);
    show::written(rt, "into 4,095", answer, &short[4093..4095])?;
    let mut exact = [0xeeu8; 4096];
    let answer = stock.pour(&mut exact);
    show::written(rt, "into 4,096", answer, &exact[4094..4096])
}

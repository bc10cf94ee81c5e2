// Writes an answer line.
use outcome::Reply;
use replies::Lent;
use std::io;

// The answer to a line that is bad, or whose call the library doesn't have yet.
pub fn bad(rt: &impl Print) -> io::Result<()> {
    println!(rt; "3 0")
}

// The reply, what the pool is by then, and the notices that the call gave.
pub fn answer(rt: &impl Print, reply: Reply, lent: &Lent<'_>) -> io::Result<()> {
    let pool = lent.view();
    print!(rt;
        "{} {} {} {} {} {} {} {} {}",
        reply.code(),
        reply.value(),
        reply.taken,
        report::free(pool.used),
        tables::at(pool.head, 0),
        report::tree(pool.nodes, pool.pages),
        report::maps(pool.mappings),
        report::mem(pool.used, pool.memory),
        reply.count,
    )?;
    for word in lent.notices.chunks(4).take(reply.count).flatten() {
        print!(rt; " {word}")?;
    }
    println!(rt)
}

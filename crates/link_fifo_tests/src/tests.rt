use link_fifo::fifo;
use mx_base::Text;
use std::test::Fail;

#[test]
fn a_fifo_of_bytes_is_made(rt: HostRuntime) -> Result<(), Fail> {
    let alloc = rt.alloc();
    let module = fifo(alloc, Text::from_vec(b"link".to_vec(alloc)?), 8, 4)?;
    assert!(rt; module.name.is(b"link"));
    assert!(rt; module.ports.len() == 8);
    let nets = [
        (2, "in$data", 8),
        (7, "out$ready", 1),
        (8, "r8", 2),
        (9, "r9", 3),
        (36, "w36", 4),
        (42, "w42", 2),
    ];
    for (number, name, width) in nets {
        let net = module.nets.get(number).ok_or("no such net")?;
        assert!(rt; net.name.is(name.as_bytes()), "net {number}");
        assert!(rt; net.width == width, "net {number}");
    }
    Ok(())
}

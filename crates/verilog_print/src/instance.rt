// The instances of a module.
ghost use Rattle.std.specs.Prelude.{◌≡◌, ◌++◌, OnOk, Some};
ghost use Rattle.std.specs.List.{flat_map, zip};
ghost use Rattle.verilog_print.specs.Printed.{instance_text, instance_line, connections_text, connection_text};

use crate::printer::Printer;
use mx_base::NoMemory;
use rtl_ir::{Instance, Module, Net, NetId, Port};

impl Printer {
    /// The instances (IEEE 1364-2005, 12.1.2), each of one of these modules.
    pub fn instances(&mut self, modules: &[Module], outer: &Module) -> Result<(), NoMemory>
        ensures ok { OnOk result (self.new.text ≡ self.old.text ++ flat_map (instance_text modules.now outer.now) outer.now.instances) }
        ensures kept { self.new.before ≡ self.old.before }
    {
        for instance in outer.instances.as_slice() {
            self.instance(modules, outer, instance)?;
        }
        Ok(())
    }

    // An instance; nothing for one of no module.
    #[tactic(auto, unfolding(crate::specs::Printed::instance_line))]
    fn instance(
        &mut self,
        modules: &[Module],
        outer: &Module,
        instance: &Instance,
    ) -> Result<(), NoMemory>
        ensures ok { OnOk result (self.new.text ≡ self.old.text ++ instance_text modules.now outer.now instance.now) }
        ensures kept { self.new.before ≡ self.old.before }
    {
        match modules.get(instance.module.index()) {
            Some(inner) => self.instance_of(outer.nets.as_slice(), inner, instance),
            None => Ok(()),
        }
    }

    #[tactic(auto, unfolding(crate::specs::Printed::instance_line))]
    fn instance_of(
        &mut self,
        outer: &[Net],
        inner: &Module,
        instance: &Instance,
    ) -> Result<(), NoMemory>
        ensures ok { OnOk result (self.new.text ≡ self.old.text ++ instance_line outer.now instance.now (Some inner.now)) }
        ensures kept { self.new.before ≡ self.old.before }
    {
        self.bytes(inner.name.as_bytes())?;
        self.bytes(b" ")?;
        self.bytes(instance.name.as_bytes())?;
        self.bytes(b" (")?;
        self.connections(outer, inner, instance.nets.as_slice())?;
        self.bytes(b");\n")
    }

    // The ports of the inner module, each with the net of the outer one that it is joined to.
    fn connections(
        &mut self,
        outer: &[Net],
        inner: &Module,
        joined: &[NetId],
    ) -> Result<(), NoMemory>
        ensures ok { OnOk result (self.new.text ≡ self.old.text ++ connections_text outer.now inner.now.nets (zip inner.now.ports joined.now)) }
        ensures kept { self.new.before ≡ self.old.before }
    {
        let mut separator: &[u8] = b"";
        for (port, net) in inner.ports.as_slice().iter().zip(joined) {
            self.bytes(separator)?;
            self.connection(outer, inner.nets.as_slice(), *port, *net)?;
            separator = b", ";
        }
        Ok(())
    }

    fn connection(
        &mut self,
        outer: &[Net],
        inner: &[Net],
        port: Port,
        net: NetId,
    ) -> Result<(), NoMemory>
        ensures ok { OnOk result (self.new.text ≡ self.old.text ++ connection_text outer.now inner.now (port, net)) }
        ensures kept { self.new.before ≡ self.old.before }
    {
        self.bytes(b".")?;
        self.name(inner, port.net)?;
        self.bytes(b"(")?;
        self.name(outer, net)?;
        self.bytes(b")")
    }
}

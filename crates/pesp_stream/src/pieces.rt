//! Texts, lists and tuples print their parts one behind another.
ghost use Rattle.std.specs.Prelude.{◌≡◌, ◌++◌};
ghost use Rattle.std.specs.List.{flat_map};
ghost use Rattle.pesp_stream.specs.Printing.{Sending, Sends};

use crate::output::Output;
use crate::printed::Printed;

/// Bytes that are a text as they stand.
#[derive(Clone, Copy)]
pub struct Bytes<'a>(pub &'a [u8]);

impl Printed for Bytes<'_> {
    ghost text = { λ b. b.0.now };

    fn print<O: Output>(&self, out: &mut O) {
        out.put(self.0);
    }
}

impl Printed for &str {
    ghost text = { λ s. s.now };

    fn print<O: Output>(&self, out: &mut O) {
        out.put(self.as_bytes());
    }
}

impl<T: Printed> Printed for &T {
    ghost text = { λ t. T.text t.now };

    fn print<O: Output>(&self, out: &mut O) {
        (**self).print(out);
    }
}

impl<T: Printed> Printed for &[T] {
    ghost text = { λ items. flat_map T.text items.now };

    #[tactic(auto, using(crate::proofs::Printing::sends_nothing, crate::proofs::Printing::sends_next, crate::proofs::Printing::sends_all))]
    fn print<O: Output>(&self, out: &mut O) {
        let items: &[T] = self;
        for item in items {
            item.print(out);
        }
    }
}

impl<A: Printed, B: Printed> Printed for (A, B) {
    ghost text = { λ t. A.text t.0 ++ B.text t.1 };

    #[tactic(auto, using(crate::proofs::Printing::sends_then))]
    fn print<O: Output>(&self, out: &mut O) {
        self.0.print(out);
        self.1.print(out);
    }
}

impl<A: Printed, B: Printed, C: Printed> Printed for (A, B, C) {
    ghost text = { λ t. A.text t.0 ++ B.text t.1 ++ C.text t.2 };

    fn print<O: Output>(&self, out: &mut O) {
        self.0.print(out);
        self.1.print(out);
        self.2.print(out);
    }
}

impl<A: Printed, B: Printed, C: Printed, D: Printed> Printed for (A, B, C, D) {
    ghost text = { λ t. A.text t.0 ++ B.text t.1 ++ C.text t.2 ++ D.text t.3 };

    fn print<O: Output>(&self, out: &mut O) {
        self.0.print(out);
        self.1.print(out);
        self.2.print(out);
        self.3.print(out);
    }
}

impl<A: Printed, B: Printed, C: Printed, D: Printed, E: Printed> Printed for (A, B, C, D, E) {
    ghost text = { λ t. A.text t.0 ++ B.text t.1 ++ C.text t.2 ++ D.text t.3 ++ E.text t.4 };

    fn print<O: Output>(&self, out: &mut O) {
        self.0.print(out);
        self.1.print(out);
        self.2.print(out);
        self.3.print(out);
        self.4.print(out);
    }
}

impl<A: Printed, B: Printed, C: Printed, D: Printed, E: Printed, F: Printed> Printed
    for (A, B, C, D, E, F) {
    ghost text = { λ t. A.text t.0 ++ B.text t.1 ++ C.text t.2 ++ D.text t.3 ++ E.text t.4
        ++ F.text t.5 };

    fn print<O: Output>(&self, out: &mut O) {
        self.0.print(out);
        self.1.print(out);
        self.2.print(out);
        self.3.print(out);
        self.4.print(out);
        self.5.print(out);
    }
}

impl<A: Printed, B: Printed, C: Printed, D: Printed, E: Printed, F: Printed, G: Printed> Printed
    for (A, B, C, D, E, F, G) {
    ghost text = { λ t. A.text t.0 ++ B.text t.1 ++ C.text t.2 ++ D.text t.3 ++ E.text t.4
        ++ F.text t.5 ++ G.text t.6 };

    fn print<O: Output>(&self, out: &mut O) {
        self.0.print(out);
        self.1.print(out);
        self.2.print(out);
        self.3.print(out);
        self.4.print(out);
        self.5.print(out);
        self.6.print(out);
    }
}

impl<
    A: Printed,
    B: Printed,
    C: Printed,
    D: Printed,
    E: Printed,
    F: Printed,
    G: Printed,
    H: Printed,
> Printed for (A, B, C, D, E, F, G, H) {
    ghost text = { λ t. A.text t.0 ++ B.text t.1 ++ C.text t.2 ++ D.text t.3 ++ E.text t.4
        ++ F.text t.5 ++ G.text t.6 ++ H.text t.7 };

    fn print<O: Output>(&self, out: &mut O) {
        self.0.print(out);
        self.1.print(out);
        self.2.print(out);
        self.3.print(out);
        self.4.print(out);
        self.5.print(out);
        self.6.print(out);
        self.7.print(out);
    }
}

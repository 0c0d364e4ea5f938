//! Where a plan is kept while it is made.

ghost use Rattle.std.specs.Prelude.{◌≡◌, Option, Some, OnOk, OnErr};
ghost use Rattle.pesp_truth.specs.declared.answer.Answer.{Answer as AnyAnswer};
ghost use Rattle.pesp_plan.specs.Planning.{MayBePut};

use pesp_cert::Fronted;
use pesp_problem::Instance;
use pesp_stream::WriteFault;
use pesp_truth::Answer;

/// A place where the text of one certificate stands for others to read, whole at every moment.
pub trait Shelf {
    // The answer of the certificate that stands there, where one does.
    ghost holds: { Self → Option AnyAnswer };

    /// The answer of the certificate that stands there, where one does.
    fn standing(&self) -> Option<Answer>
        ensures { result ≡ holds self.now };

    /// Says that a certificate with this answer stands there from the beginning.
    fn stands(&mut self, answer: Answer)
        ensures { holds self.new ≡ Some answer };

    /// Puts the text of a certificate of the instance there, in the place of what stands. Where that fails, what stood there still
    /// does.
    fn put(&mut self, instance: &Instance, certificate: &Fronted) -> Result<(), WriteFault>
        requires { MayBePut instance.now (holds self.old) certificate.now }
        ensures put { OnOk result (holds self.new ≡ Some certificate.now.content.answer) }
        ensures kept { OnErr result (holds self.new ≡ holds self.old) };
}

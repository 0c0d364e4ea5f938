//! A certificate with its front.

use crate::certificate::Certificate;
use crate::front::Front;
use std::marker::Model;

/// A certificate, and the front of its text where it has one.
#[derive(Drop)]
pub struct Fronted {
    pub front: Option<Front>,
    pub certificate: Certificate,
}

impl Model for Fronted {
    ghost use Rattle.pesp_cert.specs.Fronted.{Fronted as SpecFronted};

    ghost Value = { SpecFronted };

    ghost view = { λ f. record { front = f.front; content = f.certificate } };
}

//! Certificates and optima.

ghost use Rattle.std.specs.Prelude.{◌≡◌, ◌<◌, ◌^◌, ℤ, pos, ◌≤ℤ◌, All, nat_abs};
ghost use Rattle.linear_program.specs.Certificates.{CertificateView, IsCertificate};

use listed::Listed;
use ratio_core::Ratio;
use std::marker::Model;

/// What says that no point of a programme gains more than `best / scale`: a price for each row.
#[derive(Drop)]
pub struct Certificate {
    scale: i128,
    best: i128,
    prices: Listed<i128>,
}

impl Model for Certificate {
    ghost use Rattle.linear_program.specs.Certificates.{CertificateView, IsCertificate};

    ghost Value = { CertificateView };

    ghost view = { λ a. record { scale = a.scale; best = a.best; prices = a.prices } };

    ghost invariant = { λ a. IsCertificate (record { scale = a.scale; best = a.best; prices = a.prices }) };
}

impl Certificate {
    /// The certificate of these numbers: a scale of at least 1, a best of at least 0, and prices of at least -(2^127 - 1).
    pub fn new(scale: i128, best: i128, prices: Listed<i128>) -> Certificate
        requires { IsCertificate (record { scale = scale; best = best; prices = prices }) }
        ensures { result ≡ record { scale = scale; best = best; prices = prices } }
    {
        Certificate {
            scale,
            best,
            prices,
        }
    }

    /// What is known of every certificate.
    pub fn known(&self)
        ensures { IsCertificate self.now }
    {
        let _ = &self.scale;
    }

    /// The scale, at least 1.
    pub fn scale(&self) -> i128
        ensures { result ≡ self.now.scale }
    {
        self.scale
    }

    /// The greatest gain times the scale, at least 0.
    pub fn best(&self) -> i128
        ensures { result ≡ self.now.best }
    {
        self.best
    }

    /// The price of each row times the scale, each at least -(2^127 - 1).
    pub fn prices(&self) -> &[i128]
        ensures { result.now ≡ self.now.prices }
    {
        self.prices.as_slice()
    }
}

/// Values that gain most, and prices that prove it.
#[derive(Drop)]
pub struct Optimum {
    /// The amount of each column.
    pub values: Listed<Ratio>,
    /// The prices, with the scale and the greatest gain.
    pub certificate: Certificate,
}

// Lists of names (ISO 9506-2, GetNameList).
ghost use Rattle.std.specs.Prelude.{◌≡◌, ◌≤◌, false};
ghost use Rattle.std.specs.Option.{option_copied};
ghost use Rattle.bay_base.specs.Exact.{ExactOr};
ghost use Rattle.bay_mms.specs.RequestViews.{scope_view};
ghost use Rattle.bay_mms.specs.Requests.{in_domain};
ghost use Rattle.bay_mms.specs.Responses.{error_text, page_text};
ghost use Rattle.bay_mms.specs.declared.response.ErrorClass.TheVariants.{NoSuchObject};
ghost use Rattle.bay_mms_initiate.specs.Sizes.{IsPduSize};
ghost use Rattle.bay_mms.specs.Writing.{text_within};
ghost use Rattle.bay_mms_services.specs.Names.{domain_names, name_list_text, no_names, variable_names};
ghost use Rattle.bay_mms_services.specs.Views.{bay_of};

use crate::invocation::Invocation;
use bay_base::text::Text;
use bay_ber::outgoing::Outgoing;
use bay_mms::fault::EncodeFault;
use bay_mms::page::write_page;
use bay_mms::request::Scope;
use bay_mms::response::{ErrorClass, Response, Service, write_error, write_response};
use bay_tree::fault::NamesFault;

// Classes of objects (ISO 9506-2, GetNameList, objectClass: namedVariable and domain).
const NAMED_VARIABLE: i64 = 0;

const DOMAIN: i64 = 9;

impl Invocation<'_> {
    // Writes the error that the object does not exist.
    fn write_unknown(&self) -> Result<Outgoing, EncodeFault>
        requires { 256 ≤ self.now.client.size }
        ensures { ExactOr EncodeFault.OutOfMemory (λ octets. octets) result
            (text_within self.now.client.size (error_text self.now.id NoSuchObject)) }
    {
        let error = write_error(self.alloc, self.id, ErrorClass::NoSuchObject)?;
        Ok(error)
    }

    // Writes a list of these names, with no more after them.
    fn write_names(&self, names: &[Text]) -> Result<Outgoing, EncodeFault>
        ensures { ExactOr EncodeFault.OutOfMemory (λ octets. octets) result
            (text_within self.now.client.size (page_text self.now.id names.now false)) }
    {
        let (id, service) = (self.id, Service::Names { names, more: false });
        write_response(self.alloc, &Response { id, service }, self.client.size)
    }

    // Writes an empty list; an error if it must follow a name, since there is no such name.
    fn write_none(&self, after: Option<&[u8]>) -> Result<Outgoing, EncodeFault>
        requires { 256 ≤ self.now.client.size }
        ensures { ExactOr EncodeFault.OutOfMemory (λ octets. octets) result
            (text_within self.now.client.size (no_names self.now.id (option_copied after.entry))) }
    {
        match after {
            None => self.write_names(&[]),
            Some(_) => self.write_unknown(),
        }
    }

    // Writes the list with the one domain; an empty list after the domain's own name.
    fn write_domain(&self, after: Option<&[u8]>) -> Result<Outgoing, EncodeFault>
        requires { 256 ≤ self.now.client.size }
        ensures { ExactOr EncodeFault.OutOfMemory (λ octets. octets) result
            (text_within self.now.client.size
            (domain_names self.now.id (bay_of self.now) (option_copied after.entry))) }
    {
        match after {
            None => {
                let domain = Text::from_str(self.alloc, self.bay.domain.as_str())?;
                self.write_names(&[domain])
            }
            Some(name) => {
                if name == self.bay.domain.as_str().as_bytes() {
                    self.write_names(&[])
                } else {
                    self.write_unknown()
                }
            }
        }
    }

    // Writes a page of the names of the domain's variables.
    fn write_variables(&self, after: Option<&[u8]>) -> Result<Outgoing, EncodeFault>
        requires { IsPduSize self.now.client.size }
        ensures { ExactOr EncodeFault.OutOfMemory (λ octets. octets) result
            (text_within self.now.client.size
            (variable_names self.now.client self.now.id (bay_of self.now)
            (option_copied after.entry))) }
    {
        let (bay, size) = (self.bay, self.client.size);
        match write_page(self.alloc, self.id, &bay.tree, &bay.names, after, size) {
            Ok(page) => Ok(page),
            Err(NamesFault::NoSuchName) => self.write_unknown(),
            Err(NamesFault::OutOfMemory) => Err(EncodeFault::OutOfMemory),
        }
    }

    // Writes the names in the domain with this name.
    fn write_in_domain(
        &self,
        class: i64,
        domain: &[u8],
        after: Option<&[u8]>,
    ) -> Result<Outgoing, EncodeFault>
        requires { IsPduSize self.now.client.size }
        ensures { ExactOr EncodeFault.OutOfMemory (λ octets. octets) result
            (text_within self.now.client.size
            (name_list_text self.now.client self.now.id class (in_domain domain.now)
            (option_copied after.entry) (bay_of self.now))) }
    {
        if domain != self.bay.domain.as_str().as_bytes() {
            return self.write_unknown();
        }
        if class == NAMED_VARIABLE {
            self.write_variables(after)
        } else {
            self.write_none(after)
        }
    }

    /// Writes the names of a class after a name, with an invoke id. `TooLong` if the response has
    /// more octets than agreed, `OutOfMemory` if an allocation fails.
    pub(crate) fn write_listing(
        &self,
        class: &i64,
        scope: &Scope<'_>,
        after: Option<&[u8]>,
    ) -> Result<Outgoing, EncodeFault>
        requires { IsPduSize self.now.client.size }
        ensures { ExactOr EncodeFault.OutOfMemory (λ octets. octets) result
            (text_within self.now.client.size
            (name_list_text self.now.client self.now.id class.now (scope_view scope.now)
            (option_copied after.entry) (bay_of self.now))) }
    {
        let class = *class;
        match scope {
            Scope::Vmd => {
                if class == DOMAIN {
                    self.write_domain(after)
                } else {
                    self.write_none(after)
                }
            }
            Scope::Domain(domain) => self.write_in_domain(class, domain, after),
            Scope::Association => self.write_none(after),
        }
    }
}
